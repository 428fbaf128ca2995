ghost use Rattle.std.specs.Prelude.{◌≡◌, ◌<◌, length};

use plan_theory::Items;
use rib_mix::{Mixed, Phase};
use route_core::RouteSource;

/// What a tree is judged over.
#[derive(Drop)]
pub(crate) struct Asked<'a, 'm, O: RouteSource, N: RouteSource> {
    /// Mixed forwarding.
    pub(crate) mixed: &'a Mixed<'m, O, N>,
    /// The phase from which each router starts.
    pub(crate) start: &'a [Phase],
    /// What is ranked.
    pub(crate) items: Items,
    ghost each: { length start.now ≡ length mixed.now.net },
}
