use crate::configurations::read;
use isis_routes::IsisRoutes;
use net_model::Net;
use ospf_routes::OspfRoutes;
use rib_mix::Mixed;
use std::test::Fail;

/// R1 and R2 on a link, and two networks at R1 at the same costs.
const TWO_NETWORKS: &str = "hostname R1
interface GigabitEthernet0/0
 ip address 10.0.12.1 255.255.255.252
 ip router isis
interface GigabitEthernet0/1
 ip address 10.0.1.1 255.255.255.0
 ip router isis
interface GigabitEthernet0/2
 ip address 10.0.2.1 255.255.255.0
 ip router isis
router ospf 1
 network 10.0.0.0 0.0.255.255 area 0
router isis
 net 49.0001.0000.0000.0001.00
 is-type level-2-only
 metric-style wide
 distance 255
end
hostname R2
interface GigabitEthernet0/0
 ip address 10.0.12.2 255.255.255.252
 ip router isis
router ospf 1
 network 10.0.0.0 0.0.255.255 area 0
router isis
 net 49.0001.0000.0000.0002.00
 is-type level-2-only
 metric-style wide
 distance 255
end
";

/// The class of an address that is known to be alike that of this one: its least address.
fn earlier(mixed: &Mixed<'_, OspfRoutes, IsisRoutes>, address: u32) -> Option<u32> {
    let atoms = mixed.atoms();
    let class = mixed.earlier_alike(atoms.of(address))?;
    if u64::from(class) < atoms.count() {
        return Some(atoms.sample(class));
    }
    None
}

/// The second network is treated like the first one, and the link like neither.
#[test]
fn networks_of_one_router_are_alike(rt: HostRuntime) -> Result<(), Fail> {
    let net = Net::build(rt.alloc(), read(&rt, rt.alloc(), TWO_NETWORKS.as_bytes())?)?;
    let old = OspfRoutes::build(rt.alloc(), &net)?;
    let new = IsisRoutes::build(rt.alloc(), &net)?;
    let mixed = Mixed::build(rt.alloc(), &net, &old, &new)?;
    assert_eq!(rt; earlier(&mixed, 0x0a00_0205), Some(0x0a00_0100));
    assert_eq!(rt; earlier(&mixed, 0x0a00_0105), None);
    assert_eq!(rt; earlier(&mixed, 0x0a00_0c01), None);
    Ok(())
}
