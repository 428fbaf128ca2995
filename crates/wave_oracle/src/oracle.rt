ghost use Rattle.std.specs.Prelude.{◌≡◌, length};
ghost use Rattle.rib_mix.specs.Mixture.{migration_of};
ghost use Rattle.wave_oracle.specs.Oracles.{HasSoundEnds};
ghost use Rattle.wave_oracle.specs.steps.ToldLoops.{IsToldLoop};

use loop_finder::{Fault, Finder};
use order_search::{Answer, Oracle, Turn};
use route_core::RouteSource;
use std::marker::Model;

/// Says of each wave list of a network whether it is seamless, and of one that isn't the loop of its first wave with
/// an unsound state.
///
/// Both ends of the network are sound, so that loops are all that may be wrong. It asks the finder, and takes no memory.
#[derive(Drop)]
pub struct WaveOracle<'a, O: RouteSource, N: RouteSource> {
    finder: Finder<'a, O, N>,
    routers: u32,
}

impl<'a, O: RouteSource, N: RouteSource> Model for WaveOracle<'a, O, N> {
    ghost use Rattle.loop_finder.specs.Faults.{Finding};
    ghost use Rattle.wave_oracle.specs.Oracles.{IsWaveOracle};

    ghost Value = { Finding O N };

    ghost view = { λ x. x.finder };

    ghost invariant = { λ x. IsWaveOracle O.table N.table x.finder x.routers };
}

impl<'a, O: RouteSource, N: RouteSource> WaveOracle<'a, O, N> {
    /// The oracle over a finder for a network of so many routers.
    pub fn new(finder: Finder<'a, O, N>, routers: u32) -> WaveOracle<'a, O, N>
        requires routers { routers ≡ length finder.mixture.net }
        requires ends { HasSoundEnds O.table N.table finder.mixture }
        ensures { result ≡ finder.entry }
    {
        WaveOracle { finder, routers }
    }
}

impl<'a, O: RouteSource, N: RouteSource> Oracle for WaveOracle<'a, O, N> {
    ghost use Rattle.plan_theory.specs.WavesMeaning.{waves_meaning};
    ghost use Rattle.plan_theory.proofs.Decided.{waves_are_decisive};

    ghost meaning = { λ o. waves_meaning (migration_of O.table N.table o.mixture) };

    ghost shown = { λ o. o.ring };

    ghost decisive = { λ o. waves_are_decisive (migration_of O.table N.table o.mixture) };

    fn size(&self) -> u32 {
        self.routers
    }

    fn base(&self) -> &[(u32, u32)] {
        &[]
    }

    fn ask(&mut self, ranks: &[u32]) -> Answer {
        if let Some((_wave, fault)) = self.finder.waves_fault(ranks) {
            let address = loop_address(fault);
            return Answer::Breaks { address };
        }
        Answer::Fine
    }

    fn turns(&self) -> &[Turn] {
        self.finder.ring()
    }
}

/// The address of a loop.
pub(crate) fn loop_address(fault: Fault) -> u32
    requires { IsToldLoop fault }
    ensures { fault ≡ Fault.Loop result }
{
    match fault {
        Fault::Loop { address } => address,
        Fault::Missing { .. } => unreachable!(),
    }
}
