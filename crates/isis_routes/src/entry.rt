ghost use Rattle.std.specs.Prelude.{IfOk};
ghost use Rattle.isis_routes.specs.steps.Asked.{HasNoDownRoute, HasNoIsisEntry, HasNoLevelRoute, HasNoneBefore, HasNoneIn, IsAway};
ghost use Rattle.isis_routes.specs.steps.Asked.{IsIsisQuestion, IsRouteElse};
ghost use Rattle.isis_routes.specs.steps.Routing.{NoDefaultRoute};

use crate::OutOfMemory;
use crate::asked::Asked;
use crate::leading::leading_offers;
use crate::level::Level;
use route_tables::{Route, is_all_addresses};
use std::alloc::Global;

/// The route of a router for a prefix: by level 1, else by level 2, else by what is leaked, else the
/// default. There is none for a connected prefix.
pub(crate) fn route_of(alloc: Global, asked: Asked) -> Result<Option<Route>, OutOfMemory>
    requires { IsIsisQuestion asked }
    ensures { IfOk result (IsRouteElse asked.entry (HasNoIsisEntry asked.entry)) }
{
    if asked.destination.one.is_connected(asked.router) {
        return Ok(None);
    }
    route_away(alloc, asked)
}

/// The route of a router that isn't connected to the prefix.
fn route_away(alloc: Global, asked: Asked) -> Result<Option<Route>, OutOfMemory>
    requires asked { IsIsisQuestion asked }
    requires away { IsAway asked }
    ensures { IfOk result (IsRouteElse asked.entry (HasNoIsisEntry asked.entry)) }
{
    if let Some(route) = level_route(alloc, asked, Level::One)? {
        return Ok(Some(route));
    }
    if let Some(route) = level_route(alloc, asked, Level::Two)? {
        return Ok(Some(route));
    }
    if let Some(route) = down_route(alloc, asked)? {
        return Ok(Some(route));
    }
    if let Some(route) = default_route(alloc, asked)? {
        return Ok(Some(route));
    }
    Ok(None)
}

/// The route in a level, where there is none in a level that comes first.
fn level_route(alloc: Global, asked: Asked, level: Level) -> Result<Option<Route>, OutOfMemory>
    requires asked { IsIsisQuestion asked }
    requires away { IsAway asked }
    requires first { HasNoneBefore asked level }
    ensures { IfOk result (IsRouteElse asked.entry (HasNoneIn asked.entry level)) }
{
    match leading_offers(asked, level) {
        Some(offers) => asked.domain.best_route(alloc, level, offers, asked.router),
        None => Ok(None),
    }
}

/// The down route, which other routers' announcements into level 1 give: a router that has no level 2 route for the
/// prefix leaks nothing of it.
fn down_route(alloc: Global, asked: Asked) -> Result<Option<Route>, OutOfMemory>
    requires asked { IsIsisQuestion asked }
    requires away { IsAway asked }
    requires without_levels { HasNoLevelRoute asked }
    ensures { IfOk result (IsRouteElse asked.entry (HasNoDownRoute asked.entry)) }
{
    if !asked.domain.runs_level_one(asked.router) {
        return Ok(None);
    }
    let down = asked.destination.down.as_slice();
    asked
        .domain
        .best_route(alloc, Level::One, down, asked.router)
}

/// The default towards the nearest attached routers, which a router that runs level 1
/// alone takes.
fn default_route(alloc: Global, asked: Asked) -> Result<Option<Route>, OutOfMemory>
    requires asked { IsIsisQuestion asked }
    requires away { IsAway asked }
    requires without_levels { HasNoLevelRoute asked }
    requires without_down { HasNoDownRoute asked }
    ensures { IfOk result (IsRouteElse asked.entry
        (NoDefaultRoute asked.entry.domain.now.net asked.entry.destination.now.one.dest asked.entry.router)) }
{
    let (domain, router) = (asked.domain, asked.router);
    if !is_all_addresses(asked.destination.one.dest)
        || !domain.runs_level_one(router)
        || domain.runs_level_two(router)
    {
        return Ok(None);
    }
    domain.best_route(alloc, Level::One, domain.attached(), router)
}
