ghost use Rattle.std.specs.Prelude.{◌≡◌};
ghost use Rattle.igp_theory.specs.LoopLaws.{AreSoundEnds};
ghost use Rattle.rib_mix.specs.Mixture.{migration_of};

use crate::finder::TwoFinder;
use order_search::{Answer, Oracle, Turn};
use rib_mix::Mixed;
use route_core::RouteSource;
use std::marker::Model;
use wave_oracle::NightOracle;

/// The oracle of 2n items, of n routers: its base is each router's first change before its second, and a turn names the item at
/// which its router switches the loop's address.
///
/// Both ends are sound, so that loops are all that may be wrong. It takes no memory.
#[derive(Drop)]
pub struct TwoOracle<'a, O: RouteSource, N: RouteSource> {
    mixed: &'a Mixed<'a, O, N>,
    night: NightOracle<'a, O, N>,
}

impl<'a, O: RouteSource, N: RouteSource> Model for TwoOracle<'a, O, N> {
    ghost use Rattle.two_pass.specs.ChangeNights.{ChangeNight, MeansChanges};

    ghost Value = { ChangeNight O N };

    ghost view = { λ x. record { mixture = x.mixed.now; turns = x.night.numbered } };

    ghost invariant = { λ x. MeansChanges O.table N.table x.mixed.now x.night };
}

impl<'a, O: RouteSource, N: RouteSource> TwoOracle<'a, O, N> {
    /// The oracle over a finder of faults.
    pub fn new(finder: TwoFinder<'a, O, N>) -> TwoOracle<'a, O, N>
        requires { AreSoundEnds (migration_of O.table N.table finder.mixture) }
        ensures { result.mixture ≡ finder.entry.mixture }
    {
        let mixed = finder.mixed();
        let night = NightOracle::new(finder.into_night());
        TwoOracle { mixed, night }
    }
}

impl<'a, O: RouteSource, N: RouteSource> Oracle for TwoOracle<'a, O, N> {
    ghost use Rattle.std.specs.Prelude.{refl};
    ghost use Rattle.plan_theory.specs.Ranked.{changes_ranked};
    ghost use Rattle.plan_theory.specs.WavesMeaning.{changes_meaning};
    ghost use Rattle.plan_theory.specs.declared.items.Items.TheVariants.{Changes};
    ghost use Rattle.plan_theory.proofs.Decided.{rankings_decided};
    ghost use Rattle.plan_theory.proofs.ItemsServe.{items_ask, items_serve};

    ghost meaning = { λ o. changes_meaning (migration_of O.table N.table o.mixture) };

    ghost shown = { λ o. o.turns };

    ghost decisive = { λ o.
        let move = migration_of O.table N.table o.mixture in
        rankings_decided move (changes_ranked move) (items_serve Changes move (λ u. refl)) (changes_meaning move)
        (items_ask Changes move) };

    fn size(&self) -> u32 {
        self.night.size()
    }

    fn base(&self) -> &[(u32, u32)] {
        self.night.base()
    }

    fn ask(&mut self, ranks: &[u32]) -> Answer {
        self.night.ask(ranks)
    }

    fn turns(&self) -> &[Turn] {
        self.night.turns()
    }
}
