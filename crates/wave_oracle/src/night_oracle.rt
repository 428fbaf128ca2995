ghost use Rattle.std.specs.Prelude.{◌≡◌};
ghost use Rattle.igp_theory.specs.LoopLaws.{AreSoundEnds};
ghost use Rattle.wave_oracle.specs.Nights.{night_move};

use crate::night::NightFinder;
use crate::oracle::loop_address;
use order_search::{Answer, Oracle, Turn};
use route_core::RouteSource;
use std::marker::Model;

/// Says of each ranking of a night whether the migration is sound throughout its timetable, and of one where it isn't the loop of
/// its first wave with an unsound state, each turn by the number that it has to name.
///
/// Both ends are sound, so that loops are all that may be wrong. It asks the finder, and takes no memory.
#[derive(Drop)]
pub struct NightOracle<'a, O: RouteSource, N: RouteSource> {
    finder: NightFinder<'a, O, N>,
}

impl<'a, O: RouteSource, N: RouteSource> Model for NightOracle<'a, O, N> {
    ghost use Rattle.igp_theory.specs.LoopLaws.{AreSoundEnds};
    ghost use Rattle.wave_oracle.specs.Nights.{Night, night_move};

    ghost Value = { Night O N };

    ghost view = { λ x. x.finder };

    ghost invariant = { λ x. AreSoundEnds (night_move O.table N.table x.finder) };
}

impl<'a, O: RouteSource, N: RouteSource> NightOracle<'a, O, N> {
    /// The oracle over a finder of faults.
    pub fn new(finder: NightFinder<'a, O, N>) -> NightOracle<'a, O, N>
        requires { AreSoundEnds (night_move O.table N.table finder) }
        ensures { result ≡ finder.entry }
    {
        NightOracle { finder }
    }
}

impl<'a, O: RouteSource, N: RouteSource> Oracle for NightOracle<'a, O, N> {
    ghost use Rattle.plan_theory.specs.Ranked.{ranked};
    ghost use Rattle.plan_theory.specs.WavesMeaning.{night_meaning};
    ghost use Rattle.plan_theory.proofs.Decided.{rankings_decided};
    ghost use Rattle.plan_theory.proofs.ItemsServe.{items_ask, items_serve};
    ghost use Rattle.wave_oracle.specs.Nights.{night_can, night_move};

    ghost meaning = { λ o. night_meaning o.items (night_move O.table N.table o) };

    ghost shown = { λ o. o.numbered };

    ghost decisive = { λ o.
        let move = night_move O.table N.table o in
        rankings_decided move (ranked o.items move) (items_serve o.items move (night_can O.table N.table o)) (night_meaning o.items move)
        (items_ask o.items move) };

    fn size(&self) -> u32 {
        self.finder.size()
    }

    fn base(&self) -> &[(u32, u32)] {
        self.finder.base()
    }

    fn ask(&mut self, ranks: &[u32]) -> Answer {
        if let Some((_wave, fault)) = self.finder.fault(ranks) {
            let address = loop_address(fault);
            self.finder.number_ring(address);
            return Answer::Breaks { address };
        }
        Answer::Fine
    }

    fn turns(&self) -> &[Turn] {
        self.finder.numbered()
    }
}
