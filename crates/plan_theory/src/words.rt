ghost use Rattle.std.specs.Prelude.{◌↔◌, ℕ, IsTrue, MatchOption};
ghost use Rattle.net_model.specs.Refusals.{IsNetwork};
ghost use Rattle.plan_theory.specs.Numbers.{IsNumberWord, NamesNumber};

use crate::items::Items;
use change_orders::{is_change_word, item_of};
use net_model::Net;

/// Whether a word has the form of a number's: the name of a router, or the word of a change.
pub fn is_number_word(items: Items, word: &[u8]) -> bool
    ensures { IsTrue result ↔ IsNumberWord items word.now }
{
    match items {
        Items::Routers => !word.is_empty(),
        Items::Changes => is_change_word(word),
    }
}

/// The number that a word names.
pub fn number_named(items: Items, net: &Net, word: &[u8]) -> Option<u32>
    ensures { MatchOption result ((number : ℕ) → NamesNumber items net.now word.now number → ⊥) (NamesNumber items net.now word.now) }
{
    match items {
        Items::Routers => net.number_of(word),
        Items::Changes => item_of(net, word),
    }
}
