use net_model::{Net, Zone};
use std::test::Fail;
use test_networks::pair;
use zone_graph::ZoneWalks;

#[test]
fn two_routers_reach_each_other(rt: HostRuntime) -> Result<(), Fail> {
    let net = Net::build(rt.alloc(), pair(rt.alloc(), 7, 9)?)?;
    let area = ZoneWalks::build(rt.alloc(), &net, Zone::Area(0))?;
    assert_eq!(rt; area.len(), 2);
    assert_eq!(rt; area.from_router(0).distance(1), Some(7));
    assert_eq!(rt; area.from_router(1).distance(0), Some(9));
    assert!(rt; area.from_router(0).first_hop(1, 1));
    let level = ZoneWalks::build(rt.alloc(), &net, Zone::Two)?;
    assert_eq!(rt; level.len(), 2);
    assert_eq!(rt; level.from_router(0).distance(1), None);
    Ok(())
}
