ghost use Rattle.std.specs.Prelude.{◌≡◌, ◌*◌, ◌<◌, ◌↔◌, ℕ, length, false, All, Any, IfOk, IsTrue, MatchBool, None, Option, Some};
ghost use Rattle.std.specs.Prelude.{replicate};
ghost use Rattle.change_orders.specs.steps.Found.{AreSeated, IsEarlyItem, IsSeatTaken};

use std::alloc::{AllocError, Global};

/// What was read so far: the wave of each item, how many waves there are, and whether the chain has come.
#[derive(Drop)]
pub(crate) struct ReadSoFar {
    /// The wave of each item, from 0, none where it stands in none yet.
    pub ranks: Vec<Option<u32>>,
    /// How many waves there are.
    pub waves: u32,
    /// Whether the chain has come.
    pub chained: bool,
}

impl ReadSoFar {
    /// Nothing, of a network of so many routers.
    pub fn new(alloc: Global, routers: u32) -> Result<ReadSoFar, AllocError>
        ensures ranks { IfOk result (λ read. read.ranks.items ≡ replicate (2 * routers) None) }
        ensures waves { IfOk result (λ read. read.waves ≡ 0) }
        ensures chained { IfOk result (λ read. read.chained ≡ false) }
    {
        Ok(ReadSoFar {
            ranks: vec![in alloc; None; 2 * routers as usize]?,
            waves: 0,
            chained: false,
        })
    }
}

/// Gives each of these items this wave, where none of them has one or stands twice among them.
pub(crate) fn seat(ranks: &mut Vec<Option<u32>>, items: &[u32], wave: u32) -> bool
    requires { All (λ i. i < length ranks.old.items) items.now }
    ensures seated { MatchBool result
        (AreSeated (record { items = items.now; wave = wave; before = ranks.old.items; after = ranks.new.items }))
        (IsSeatTaken items.now ranks.old.items) }
    ensures count { length ranks.new.items ≡ length ranks.old.items }
{
    for item in items {
        let place = *item as usize;
        if ranks[place].is_some() {
            return false;
        }
        ranks[place] = Some(wave);
    }
    true
}

/// Whether some item is a second change whose first one isn't in a wave before this one.
pub(crate) fn some_early(ranks: &[Option<u32>], items: &[u32], wave: u32) -> bool
    requires { All (λ i. i < length ranks.now) items.now }
    ensures { MatchBool result
        (Any (IsEarlyItem ranks.now wave) items.now)
        (All (λ i. IsEarlyItem ranks.now wave i → ⊥) items.now) }
{
    for item in items {
        if is_early(ranks, *item, wave) {
            return true;
        }
    }
    false
}

/// Whether an item is a second change whose first one isn't in a wave before this one.
fn is_early(ranks: &[Option<u32>], item: u32, wave: u32) -> bool
    requires { item < length ranks.now }
    ensures { IsTrue result ↔ IsEarlyItem ranks.now wave item }
{
    item % 2 == 1 && !is_before(ranks[item as usize - 1], wave)
}

/// Whether there is a wave, and it comes before another.
fn is_before(rank: Option<u32>, wave: u32) -> bool
    ensures { IsTrue result ↔ ((v : ℕ) × (rank ≡ Some v) × (v < wave)) }
{
    match rank {
        Some(rank) => rank < wave,
        None => false,
    }
}
