use isis_routes::IsisRoutes;
use net_model::{Configs, Net};
use route_core::{Entry, RouteSource};
use std::alloc::Global;
use std::process::Abort;
use std::test::Fail;
use test_networks::ring_of_levels;

/// The hops of the entry that a router uses for an address, none where it has no entry.
fn hops<'a>(routes: &'a IsisRoutes, router: u32, a: u32) -> &'a [u32] {
    if router >= routes.routers() {
        return &[];
    }
    let table = routes.table(router);
    match table.longest(a) {
        Some(i) => match table.entry(i) {
            Entry::Via(hops) => hops.as_slice(),
            Entry::Discard => &[],
        },
        None => &[],
    }
}

/// Whether two routers of the source are linked.
fn are_linked(routes: &IsisRoutes, u: u32, v: u32) -> bool {
    u < routes.routers() && v < routes.routers() && routes.linked(u, v)
}

#[test]
fn level_one_wins_and_the_default_leads_to_the_nearest(rt: HostRuntime) -> Result<(), Fail> {
    let net = Net::build(rt.alloc(), ring_of_levels(rt.alloc(), 10)?)?;
    let routes = IsisRoutes::build(rt.alloc(), &net)?;
    assert_eq!(rt; routes.routers(), 4);
    let outside = 0xc000_0201;
    // all hops of the default; by level 1, though level 2 costs less; what level 1 announces
    assert_eq!(rt; hops(&routes, 2, outside), [0u32, 1].as_slice());
    assert_eq!(rt; hops(&routes, 0, 0x0a00_1802), [2u32].as_slice());
    assert_eq!(rt; hops(&routes, 3, 0x0a00_0003), [0u32, 1].as_slice());
    // no default at routers of both levels, and no entry for a connected prefix
    assert_eq!(rt; hops(&routes, 0, outside).len(), 0);
    assert_eq!(rt; hops(&routes, 0, 0x0a00_0d02).len(), 0);
    for (u, v, linked) in [(0, 2, true), (3, 0, true), (0, 1, false), (2, 3, false)] {
        assert_eq!(rt; are_linked(&routes, u, v), linked);
    }
    Ok(())
}

#[test]
fn the_nearest_attached_router_alone(rt: HostRuntime) -> Result<(), Fail> {
    let net = Net::build(rt.alloc(), ring_of_levels(rt.alloc(), 20)?)?;
    let routes = IsisRoutes::build(rt.alloc(), &net)?;
    assert_eq!(rt; hops(&routes, 2, 0xc000_0201), [0u32].as_slice());
    Ok(())
}

/// The hops of a router's entry for the prefix of one address, none where it has no such entry.
fn host_hops<'a>(routes: &'a IsisRoutes, router: u32, a: u32) -> &'a [u32] {
    if router >= routes.routers() {
        return &[];
    }
    let table = routes.table(router);
    match table.longest(a) {
        Some(i) if table.dest(i).len() == 32 => hops(routes, router, a),
        _ => &[],
    }
}

/// The tables of the ring where its first routers leak.
fn leaking(rt: &impl Abort, alloc: Global, routers: usize) -> Result<IsisRoutes, Fail> {
    let mut all = ring_of_levels(alloc, 10)?.into_vec();
    for config in all.iter_mut().take(routers) {
        config.leak = true;
    }
    let net = Net::build(alloc, Configs::from_vec(all))?;
    let routes = IsisRoutes::build(alloc, &net)?;
    assert_eq!(rt; routes.routers(), 4);
    Ok(routes)
}

/// What R2 has for the loopback of R3 where the first routers leak: R1's entry and the default stay.
fn shows_leaked(
    rt: &impl Abort,
    alloc: Global,
    routers: usize,
    leaked: &[u32],
) -> Result<(), Fail> {
    let routes = leaking(rt, alloc, routers)?;
    assert_eq!(rt; host_hops(&routes, 2, 0x0a00_0004), leaked);
    assert_eq!(rt; host_hops(&routes, 1, 0x0a00_0004), [3u32].as_slice());
    assert_eq!(rt; hops(&routes, 2, 0xc000_0201), [0u32, 1].as_slice());
    Ok(())
}

#[test]
fn routers_of_both_levels_leak(rt: HostRuntime) -> Result<(), Fail> {
    shows_leaked(&rt, rt.alloc(), 0, &[])?;
    shows_leaked(&rt, rt.alloc(), 1, &[0])?;
    shows_leaked(&rt, rt.alloc(), 2, &[0, 1])
}
