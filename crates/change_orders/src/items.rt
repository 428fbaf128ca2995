ghost use Rattle.std.specs.Prelude.{◌≡◌, ◌-◌, ◌≤◌, ◌↔◌, ℕ, length, map, take, IfOk, IfSome, IsTrue, MatchBool, MatchOption, Some};
ghost use Rattle.std.specs.List.{AllZip};
ghost use Rattle.change_orders.specs.ChangeWords.{IsChangeNumber, IsChangeWord, NamesItem, change_word};
ghost use Rattle.change_orders.specs.steps.Found.{AscendWhereFound, DescendSomewhere, EndsAsChange, IsItemFound, LacksSome};

use net_model::Net;
use std::alloc::{AllocError, Global};

/// Whether a word has the form of a change's: a byte or more, a colon, and 1 or 2.
pub fn is_change_word(word: &[u8]) -> bool
    ensures { IsTrue result ↔ IsChangeWord word.now }
{
    word.len() > 2 && change_number(word).is_some()
}

/// The item of the change that a word names.
pub fn item_of(net: &Net, word: &[u8]) -> Option<u32>
    ensures { MatchOption result ((item : ℕ) → NamesItem net.now word.now item → ⊥) (NamesItem net.now word.now) }
{
    let number = change_number(word)?;
    let router = net.number_of(&word[..word.len() - 2])?;
    Some(2 * router + number - 1)
}

/// The number of the change that a word ends with, behind a colon.
fn change_number(word: &[u8]) -> Option<u32>
    ensures number { MatchOption result
        ((c : ℕ) → EndsAsChange word.now c → ⊥)
        (λ c. IsChangeNumber c × (word.now ≡ change_word (take (length word.now - 2) word.now) c)) }
    ensures long { IfSome result (λ _. 2 ≤ length word.now) }
{
    if word.len() < 2 {
        return None;
    }
    let (_, ending) = word.split_at(word.len() - 2);
    if ending == b":1".as_slice() {
        Some(1)
    } else if ending == b":2".as_slice() {
        Some(2)
    } else {
        None
    }
}

/// The items that words name, of each the one that it names.
pub(crate) fn items_found(
    alloc: Global,
    net: &Net,
    words: &[&[u8]],
) -> Result<Vec<Option<u32>>, AllocError>
    ensures { IfOk result (λ found. AllZip (IsItemFound net.now) (map (λ word. word.now) words.now) found.items) }
{
    let mut found = Vec::new(alloc);
    for word in words {
        found.push(item_of(net, word))?;
    }
    Ok(found)
}

/// Whether no item that was found stands behind a higher one.
pub(crate) fn are_in_order(found: &[Option<u32>]) -> bool
    ensures { MatchBool result (AscendWhereFound found.now (length found.now)) (DescendSomewhere found.now) }
{
    let mut most = 0;
    for item in found {
        match *item {
            Some(item) if item < most => return false,
            Some(item) => most = item,
            None => {}
        }
    }
    true
}

/// The items where each was found.
pub(crate) fn all_found(
    alloc: Global,
    found: &[Option<u32>],
) -> Result<Option<Vec<u32>>, AllocError>
    ensures { IfOk result (λ all. MatchOption all (LacksSome found.now) (λ items. found.now ≡ map (λ i. Some i) items.items)) }
{
    let mut items = Vec::new(alloc);
    for item in found {
        let Some(item) = *item else {
            return Ok(None);
        };
        items.push(item)?;
    }
    Ok(Some(items))
}
