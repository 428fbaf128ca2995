ghost use Rattle.std.specs.Prelude.{◌≡◌, ◌+◌, ◌<◌, ◌^◌, ◌++◌, ◌∷◌, [], ℕ, All, Contains, IfOk, IsTrue, ◌↔◌, length, map};
ghost use Rattle.net_model.specs.RouterNames.{names_of};
ghost use Rattle.order_core.specs.Rankings.{rank_of};
ghost use Rattle.order_core.specs.Turns.{old_routers};
ghost use Rattle.printed_lines.specs.Words.{spaced};
ghost use Rattle.refutation_check.specs.TreeLines.{letter_of};
ghost use Rattle.explained_texts.specs.ReasonTexts.{IsLowestBefore};
ghost use Rattle.explained_texts.specs.RingWords.{tagged_word};
ghost use Rattle.explained_texts.specs.steps.Asking.{is_old_of};

use crate::OutOfMemory;
use crate::earlier::name_of;
use net_model::Net;
use order_core::{Tag, Turn};
use printed_lines::LineBuilder;

/// The lowest number tagged `Old` of the wave before a number's own: of routers, or of single changes.
pub fn lowest_before(ranks: &[u32], ring: &[Turn], router: u32) -> u32
    requires router { router < length ranks.now }
    requires few { (u : ℕ) → rank_of ranks.now u + 1 < 2 ^ 32 }
    requires short { length ranks.now < 2 ^ 32 }
    requires inside { All (λ turn. turn.router < length ranks.now) ring.now }
    requires some { (u : ℕ) × Contains (old_routers ring.now) u × (rank_of ranks.now u + 1 ≡ rank_of ranks.now router) }
    ensures { IsLowestBefore ranks.now ring.now router result }
{
    let rank = ranks[router as usize];
    for before in 0..ranks.len() as u32 {
        if ranks[before as usize] + 1 == rank && is_old_turn(ring, before) {
            return before;
        }
    }
    unreachable!()
}

/// Whether a router is tagged `Old` in a ring.
fn is_old_turn(ring: &[Turn], router: u32) -> bool
    ensures { IsTrue result ↔ Contains (old_routers ring.now) router }
{
    for turn in ring {
        if is_old_of(*turn, router) {
            return true;
        }
    }
    false
}

/// Whether a turn is a router's, and tagged `Old`.
fn is_old_of(turn: Turn, router: u32) -> bool
    ensures { result ≡ is_old_of router turn }
{
    turn.router == router && turn.tag.is_old()
}

/// The line with the routers of some turns more, each with the letter of its tag: `R1:O R2:N`. The only error is want of memory.
pub fn with_turns(line: LineBuilder, net: &Net, ring: &[Turn]) -> Result<LineBuilder, OutOfMemory>
    requires { All (λ turn. turn.router < length net.now) ring.now }
    ensures { IfOk result (λ longer. longer ≡ line ++ spaced (map (tagged_word (names_of net.now)) ring.now)) }
{
    let mut line = line;
    for turn in ring {
        line = line
            .word(name_of(net, turn.router))?
            .attach(b':', letter(turn.tag))?;
    }
    Ok(line)
}

/// The letter of a tag.
fn letter(tag: Tag) -> &'static [u8]
    ensures { result.now ≡ letter_of tag ∷ [] }
{
    match tag {
        Tag::Old => b"O",
        Tag::New => b"N",
        Tag::Both => b"B",
    }
}
