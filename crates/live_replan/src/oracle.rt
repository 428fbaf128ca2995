ghost use Rattle.std.specs.Prelude.{◌≡◌};
ghost use Rattle.igp_theory.specs.LoopLaws.{AreSoundEnds};
ghost use Rattle.live_replan.specs.RestNights.{rest_move};

use crate::finder::RestFinder;
use igp_theory::Phase;
use order_search::{Answer, Oracle, Turn};
use rib_mix::Mixed;
use route_core::RouteSource;
use std::marker::Model;
use wave_oracle::NightOracle;

/// The oracle of the routers of a night that goes on from a start, with an empty base: a ranking is good where each state of each
/// run of the rest is sound, and loops are those of the start.
///
/// Both ends are sound, so that loops are all that may be wrong. It takes no memory.
#[derive(Drop)]
pub struct RestOracle<'a, O: RouteSource, N: RouteSource> {
    mixed: &'a Mixed<'a, O, N>,
    /// The phase from which each router goes on.
    start: Vec<Phase>,
    night: NightOracle<'a, O, N>,
}

impl<'a, O: RouteSource, N: RouteSource> Model for RestOracle<'a, O, N> {
    ghost use Rattle.live_replan.specs.RestNights.{MeansRest, RestNight};

    ghost Value = { RestNight O N };

    ghost view = { λ x. record { mixture = x.mixed.now; start = x.start.items; turns = x.night.numbered } };

    ghost invariant = { λ x. MeansRest O.table N.table x.mixed.now x.start.items x.night };
}

impl<'a, O: RouteSource, N: RouteSource> RestOracle<'a, O, N> {
    /// The oracle over a finder of faults.
    pub fn new(finder: RestFinder<'a, O, N>) -> RestOracle<'a, O, N>
        requires { AreSoundEnds (rest_move O.table N.table finder) }
        ensures mixture { result.mixture ≡ finder.entry.mixture }
        ensures start { result.start ≡ finder.entry.start }
    {
        let mixed = finder.mixed();
        let (start, finder) = finder.into_night();
        let night = NightOracle::new(finder);
        RestOracle {
            mixed,
            start,
            night,
        }
    }
}

impl<'a, O: RouteSource, N: RouteSource> Oracle for RestOracle<'a, O, N> {
    ghost use Rattle.plan_theory.specs.Ranked.{routers_ranked};
    ghost use Rattle.plan_theory.specs.WavesMeaning.{waves_meaning};
    ghost use Rattle.plan_theory.specs.declared.items.Items.TheVariants.{Routers};
    ghost use Rattle.plan_theory.proofs.Decided.{rankings_decided};
    ghost use Rattle.plan_theory.proofs.ItemsServe.{items_ask, items_serve};
    ghost use Rattle.live_replan.specs.RestNights.{rest_move};

    ghost meaning = { λ o. waves_meaning (rest_move O.table N.table o) };

    ghost shown = { λ o. o.turns };

    ghost decisive = { λ o.
        let move = rest_move O.table N.table o in
        rankings_decided move (routers_ranked move) (items_serve Routers move tt) (waves_meaning move) (items_ask Routers move) };

    fn size(&self) -> u32 {
        self.night.size()
    }

    fn base(&self) -> &[(u32, u32)] {
        self.night.base()
    }

    fn ask(&mut self, ranks: &[u32]) -> Answer {
        self.night.ask(ranks)
    }

    fn turns(&self) -> &[Turn] {
        self.night.turns()
    }
}
