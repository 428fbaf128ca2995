use net_model::Net;
use ospf_routes::OspfRoutes;
use route_core::{Entry, RouteSource};
use std::alloc::Global;
use std::test::Fail;
use test_networks::{Rules, ring_of_areas};

/// The border routers have the range, at the least cost of its components, and no stub area.
const RANGED: Rules = Rules {
    ranged: true,
    rfc1583: true,
    near: None,
    far: None,
};

/// The network of the ring with these rules.
fn ring(alloc: Global, rules: Rules) -> Result<Net, Fail> {
    Ok(Net::build(alloc, ring_of_areas(alloc, rules)?)?)
}

/// The hops of the entry that a router uses for an address, none where it has no entry or discards.
fn hops<'a>(routes: &'a OspfRoutes, router: u32, a: u32) -> &'a [u32] {
    if router >= routes.routers() {
        return &[];
    }
    let table = routes.table(router);
    match table.longest(a) {
        Some(i) => match table.entry(i) {
            Entry::Via(hops) => hops.as_slice(),
            Entry::Discard => &[],
        },
        None => &[],
    }
}

/// Whether the entry that a router uses for an address discards.
fn discards(routes: &OspfRoutes, router: u32, a: u32) -> bool {
    if router >= routes.routers() {
        return false;
    }
    let table = routes.table(router);
    match table.longest(a) {
        Some(i) => matches!(table.entry(i), Entry::Discard),
        None => false,
    }
}

/// Whether two routers of the source are linked.
fn are_linked(routes: &OspfRoutes, u: u32, v: u32) -> bool {
    u < routes.routers() && v < routes.routers() && routes.linked(u, v)
}

#[test]
fn a_range_costs_the_least_of_its_components(rt: HostRuntime) -> Result<(), Fail> {
    let net = ring(rt.alloc(), RANGED)?;
    let routes = OspfRoutes::build(rt.alloc(), &net)?;
    assert_eq!(rt; routes.routers(), 4);
    assert_eq!(rt; hops(&routes, 0, 0x0a01_6363), [1u32].as_slice());
    assert!(rt; discards(&routes, 1, 0x0a01_6363));
    for (u, v, linked) in [(0, 1, true), (3, 2, true), (0, 2, false), (1, 3, false)] {
        assert_eq!(rt; are_linked(&routes, u, v), linked);
    }
    Ok(())
}

#[test]
fn without_rfc_1583_it_costs_the_greatest(rt: HostRuntime) -> Result<(), Fail> {
    let net = ring(
        rt.alloc(),
        Rules {
            rfc1583: false,
            ..RANGED
        },
    )?;
    let routes = OspfRoutes::build(rt.alloc(), &net)?;
    assert_eq!(rt; hops(&routes, 0, 0x0a01_6363), [3u32].as_slice());
    Ok(())
}

#[test]
fn the_intra_area_route_wins(rt: HostRuntime) -> Result<(), Fail> {
    let net = ring(
        rt.alloc(),
        Rules {
            ranged: false,
            ..RANGED
        },
    )?;
    let routes = OspfRoutes::build(rt.alloc(), &net)?;
    assert_eq!(rt; hops(&routes, 1, 0x0a01_0003), [2u32].as_slice());
    Ok(())
}

#[test]
fn both_defaults_of_a_stub_area(rt: HostRuntime) -> Result<(), Fail> {
    let net = ring(
        rt.alloc(),
        Rules {
            near: Some(1),
            far: Some(1),
            ..RANGED
        },
    )?;
    let routes = OspfRoutes::build(rt.alloc(), &net)?;
    assert_eq!(rt; hops(&routes, 2, 0xc000_0201), [1u32, 3].as_slice());
    Ok(())
}

#[test]
fn the_cheaper_default_alone(rt: HostRuntime) -> Result<(), Fail> {
    let net = ring(
        rt.alloc(),
        Rules {
            near: Some(5),
            far: Some(1),
            ..RANGED
        },
    )?;
    let routes = OspfRoutes::build(rt.alloc(), &net)?;
    assert_eq!(rt; hops(&routes, 2, 0xc000_0201), [3u32].as_slice());
    Ok(())
}
