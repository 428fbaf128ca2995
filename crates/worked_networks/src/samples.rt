use sample_network::sample_text;
use std::test::Fail;

/// The configurations of the sample network of three routers, worked out by its rules: link 3 costs 1000 for OSPF, and link 1,
/// since 3 / 2 is 1, has the metric 10000.
const FIRST: &[u8] = b"hostname S01
interface Loopback0
 ip address 10.0.0.1 255.255.255.255
 ip router isis
interface GigabitEthernet0/0
 ip address 10.1.1.1 255.255.255.252
 ip ospf cost 1
 ip router isis
 isis metric 10000
interface GigabitEthernet0/1
 ip address 10.1.3.2 255.255.255.252
 ip ospf cost 1000
 ip router isis
 isis metric 10
router ospf 1
 network 10.0.0.0 0.255.255.255 area 0
router isis
 net 49.0001.0000.0000.0001.00
 is-type level-2-only
 metric-style wide
 distance 255
end
";

const SECOND: &[u8] = b"hostname S02
interface Loopback0
 ip address 10.0.0.2 255.255.255.255
 ip router isis
interface GigabitEthernet0/0
 ip address 10.1.2.1 255.255.255.252
 ip ospf cost 1
 ip router isis
 isis metric 10
interface GigabitEthernet0/1
 ip address 10.1.1.2 255.255.255.252
 ip ospf cost 1
 ip router isis
 isis metric 10000
router ospf 1
 network 10.0.0.0 0.255.255.255 area 0
router isis
 net 49.0001.0000.0000.0002.00
 is-type level-2-only
 metric-style wide
 distance 255
end
";

const THIRD: &[u8] = b"hostname S03
interface Loopback0
 ip address 10.0.0.3 255.255.255.255
 ip router isis
interface GigabitEthernet0/0
 ip address 10.1.3.1 255.255.255.252
 ip ospf cost 1000
 ip router isis
 isis metric 10
interface GigabitEthernet0/1
 ip address 10.1.2.2 255.255.255.252
 ip ospf cost 1
 ip router isis
 isis metric 10
router ospf 1
 network 10.0.0.0 0.255.255.255 area 0
router isis
 net 49.0001.0000.0000.0003.00
 is-type level-2-only
 metric-style wide
 distance 255
end
";

#[test]
fn the_sample_of_three_routers(rt: HostRuntime) -> Result<(), Fail> {
    let mut wanted = Vec::from_slice(rt.alloc(), FIRST)?;
    wanted.extend_from_slice(SECOND)?;
    wanted.extend_from_slice(THIRD)?;
    let text = sample_text(rt.alloc(), 3)?;
    assert_eq!(rt; text.as_slice(), wanted.as_slice());
    Ok(())
}
