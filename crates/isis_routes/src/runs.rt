ghost use Rattle.std.specs.Prelude.{◌≡◌, ◌<◌, ◌↔◌, ℕ, length, IfOk, IsTrue, Some};
ghost use Rattle.net_model.specs.Refusals.{IsNetwork};
ghost use Rattle.igp_theory.specs.Isis.{RunsLevelOne, RunsLevelTwo, Leaks};
ghost use Rattle.route_tables.specs.Lists.{Exactly};
ghost use Rattle.isis_routes.specs.steps.Routing.{RunsBothLevels, IsThisRouter};

use crate::OutOfMemory;
use net_model::Net;
use route_tables::push_option;
use std::alloc::Global;

/// Whether the router has an IS-IS process that runs level 1.
pub(crate) fn runs_level_one(net: &Net, u: u32) -> bool
    requires { u < length net.now }
    ensures runs { IsTrue result ↔ RunsLevelOne net.now u }
    ensures network { IsNetwork net.now }
{
    let config = net.config(u);
    config.isis && config.levels.has_level_one()
}

/// Whether the router has an IS-IS process that runs level 2.
pub(crate) fn runs_level_two(net: &Net, u: u32) -> bool
    requires { u < length net.now }
    ensures runs { IsTrue result ↔ RunsLevelTwo net.now u }
    ensures network { IsNetwork net.now }
{
    let config = net.config(u);
    config.isis && config.levels.has_level_two()
}

/// Whether the router runs both levels.
fn runs_both_levels(net: &Net, u: u32) -> bool
    requires { u < length net.now }
    ensures { IsTrue result ↔ RunsBothLevels net.now u }
{
    runs_level_one(net, u) && runs_level_two(net, u)
}

/// Whether the router runs both levels and leaks level 2 routes into level 1 (RFC 5302).
fn leaks(net: &Net, u: u32) -> bool
    requires { u < length net.now }
    ensures { IsTrue result ↔ Leaks net.now u }
{
    runs_level_one(net, u) && runs_level_two(net, u) && net.config(u).leak
}

/// The routers that run both levels.
pub(crate) fn routers_of_both_levels(alloc: Global, net: &Net) -> Result<Vec<u32>, OutOfMemory>
    ensures routers { IfOk result (λ routers. Exactly (RunsBothLevels net.now) routers.items) }
    ensures network { IsNetwork net.now }
{
    let mut routers = Vec::new(alloc);
    for u in 0..net.routers() {
        push_option(&mut routers, where_so(u, runs_both_levels(net, u)))?;
    }
    Ok(routers)
}

/// The routers that leak level 2 routes into level 1.
pub(crate) fn leaking_routers(alloc: Global, net: &Net) -> Result<Vec<u32>, OutOfMemory>
    ensures { IfOk result (λ routers. Exactly (Leaks net.now) routers.items) }
{
    let mut routers = Vec::new(alloc);
    for u in 0..net.routers() {
        push_option(&mut routers, where_so(u, leaks(net, u)))?;
    }
    Ok(routers)
}

/// The router, where this is so.
fn where_so(u: u32, so: bool) -> Option<u32>
    ensures { (v : ℕ) → (result ≡ Some v) ↔ IsThisRouter (λ _. IsTrue so) u v }
{
    if so { Some(u) } else { None }
}
