ghost use Rattle.std.specs.Prelude.{◌≡◌, ◌<◌, ◌↔◌, ℕ, length, Some, IfOk};
ghost use Rattle.isis_routes.specs.steps.Destinations.{IsLevelOne};
ghost use Rattle.isis_routes.specs.steps.Near.{AreAllNear, AreNearOfBoth, HoldAnnouncers, IsNear};

use crate::OutOfMemory;
use crate::domain::Domain;
use crate::level_one::LevelOne;
use crate::level_walks::ZONE_ONE;
use route_tables::push_option;
use std::alloc::Global;
use std::marker::Model;

/// The routers of both levels that reach a router by level 1.
#[derive(Debug, Drop)]
pub(crate) struct NearRouters {
    routers: Vec<u32>,
}

impl Model for NearRouters {
    ghost use Rattle.std.specs.Prelude.{List, ℕ};

    ghost Value = { List ℕ };

    ghost view = { λ x. x.routers.items };
}

impl NearRouters {
    /// Those that reach the router `to`.
    fn of_router(alloc: Global, domain: &Domain<'_>, to: u32) -> Result<NearRouters, OutOfMemory>
        ensures { IfOk result (AreNearOfBoth domain.now.net to) }
    {
        let mut routers = Vec::new(alloc);
        for router in domain.both() {
            push_option(&mut routers, near_router(domain, *router, to))?;
        }
        Ok(NearRouters { routers })
    }

    /// The routers as a slice.
    fn as_slice(&self) -> &[u32]
        ensures { result.now ≡ self.now }
    {
        self.routers.as_slice()
    }
}

/// The router, where it reaches the router `to` by level 1.
fn near_router(domain: &Domain<'_>, router: u32, to: u32) -> Option<u32>
    requires { router < length domain.now.net }
    ensures { (u : ℕ) → (result ≡ Some u) ↔ IsNear domain.now.net to router u }
{
    match domain.walks(router, ZONE_ONE).distance(to) {
        Some(_) => Some(router),
        None => None,
    }
}

/// For each router those of both levels that reach it by level 1.
pub(crate) fn all_near(alloc: Global, domain: &Domain<'_>) -> Result<Vec<NearRouters>, OutOfMemory>
    ensures { IfOk result (λ all. AreAllNear domain.now.net (length domain.now.net) all.items) }
{
    let mut all = Vec::new(alloc);
    for to in 0..domain.net().routers() {
        all.push(NearRouters::of_router(alloc, domain, to)?)?;
    }
    Ok(all)
}

/// Of the routers of both levels some, among which are all that announce the prefix by level 1: where it is offered there at
/// one router, those that reach this one.
pub(crate) fn announcers<'a>(
    domain: &'a Domain<'_>,
    near: &'a [NearRouters],
    one: &LevelOne,
) -> &'a [u32]
    requires near { AreAllNear domain.now.net (length domain.now.net) near.now }
    requires one { IsLevelOne domain.now.net one.now }
    ensures { HoldAnnouncers domain.now.net one.now.dest result.now }
{
    if one.has_no_offers() {
        return &[];
    }
    let Some(at) = one.lone_offer() else {
        return domain.both();
    };
    if at < domain.net().routers() {
        near[at as usize].as_slice()
    } else {
        domain.both()
    }
}
