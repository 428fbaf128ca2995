ghost use Rattle.std.specs.Prelude.{◌≡◌, ◌+◌, ◌<◌, ◌^◌, IfOk, All, length};
ghost use Rattle.std.specs.Int.{div_ceil};
ghost use Rattle.order_core.specs.Orders.{AreDistinct};
ghost use Rattle.order_core.specs.Rankings.{IsRanking};
ghost use Rattle.step_scripts.specs.WavesTexts.{waves_in};
ghost use Rattle.split_waves.specs.Cuts.{cut_waves};
ghost use Rattle.split_waves.specs.steps.Seats.{AreRankedByCuts, seating};

use order_core::Waves;
use std::alloc::{AllocError, Global};

/// The list in which each wave is cut into waves of so many routers, in their order, and a rest.
pub fn split_waves(alloc: Global, waves: &Waves, most: u32) -> Result<Waves, AllocError>
    requires { 0 < most }
    ensures ranking { IfOk result (λ split. IsRanking (length waves.now) split) }
    ensures cuts { IfOk result (λ split. waves_in split ≡ cut_waves most waves.now) }
{
    let mut ranks = Vec::from_slice(alloc, waves.ranks())?;
    let mut count = 0;
    for wave in 0..waves.count() {
        count = seat_cuts(&mut ranks, waves.wave(wave), most, count);
    }
    Waves::from_ranks(alloc, ranks.as_slice())
}

/// Gives the routers of a wave the ranks of its cuts, counted from this one on; the rank behind the last of them.
fn seat_cuts(ranks: &mut Vec<u32>, routers: &[u32], most: u32, first: u32) -> u32
    requires some { 0 < most }
    requires once { AreDistinct routers.now }
    requires known { All (λ u. u < length ranks.old.items) routers.now }
    requires few { first + length routers.now < 2 ^ 32 }
    ensures count { result ≡ first + div_ceil (length routers.now) most }
    ensures seated { AreRankedByCuts most first routers.now (seating ranks.old.items ranks.new.items) }
{
    for place in 0..routers.len() {
        ranks[routers[place] as usize] = first + place as u32 / most;
    }
    first + (routers.len() as u32).div_ceil(most)
}
