ghost use Rattle.std.specs.Prelude.{◌≡◌, ◌<◌, ◌^◌, All, IfOk, length};
ghost use Rattle.order_core.specs.Rankings.{IsRanking};

use anyhow::Result;
use order_core::Waves;
use std::alloc::Global;

/// Wave lists, each made of one list by exchanging the ranks of two routers.
pub fn exchanged_lists(alloc: Global, ranks: &[u32], count: u32) -> Result<Vec<Waves>>
    requires some { 0 < length ranks.now }
    requires few { length ranks.now < 2 ^ 32 }
    requires ranking { IsRanking (length ranks.now) ranks.now }
    ensures { IfOk result (λ lists. All (λ waves. length waves ≡ length ranks.now) lists.items) }
{
    let mut lists = Vec::new(alloc);
    let mut seed = 1;
    for _ in 0..count {
        let one = next_number(seed);
        let other = next_number(one);
        seed = other;
        let waves = exchanged(alloc, ranks, place_of(one, ranks), place_of(other, ranks))?;
        lists.push(waves)?;
    }
    Ok(lists)
}

/// The wave list with the ranks of two routers exchanged.
fn exchanged(alloc: Global, ranks: &[u32], one: usize, other: usize) -> Result<Waves>
    requires few { length ranks.now < 2 ^ 32 }
    requires ranking { IsRanking (length ranks.now) ranks.now }
    requires one { one < length ranks.now }
    requires other { other < length ranks.now }
    ensures { IfOk result (λ waves. length waves ≡ length ranks.now) }
{
    let mut exchanged = Vec::from_slice(alloc, ranks)?;
    exchange(&mut exchanged, one, other);
    let waves = Waves::from_ranks(alloc, exchanged.as_slice())?;
    Ok(waves)
}

/// Exchanges two ranks.
fn exchange(ranks: &mut [u32], one: usize, other: usize)
    requires ranking { IsRanking (length ranks.old) ranks.old }
    requires one { one < length ranks.old }
    requires other { other < length ranks.old }
    ensures { IsRanking (length ranks.old) ranks.new }
{
    ranks.swap(one, other);
}

/// The number after another in a row of numbers without an apparent rule (Park and Miller, 1988).
fn next_number(number: u64) -> u64 {
    number.wrapping_mul(48_271) % 2_147_483_647
}

/// The place that a number falls on.
fn place_of(number: u64, ranks: &[u32]) -> usize
    requires { 0 < length ranks.now }
    ensures { result < length ranks.now }
{
    (number % ranks.len() as u64) as usize
}
