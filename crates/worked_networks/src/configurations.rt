use ios_reader::read_configs;
use net_model::{Config, Configs, Interface, Levels, Range};
use std::alloc::Global;
use std::process::Abort;
use std::test::Fail;

/// The configurations of a text.
pub(crate) fn read(rt: &impl Abort, alloc: Global, text: &[u8]) -> Result<Configs, Fail> {
    assert!(rt; text.len() < 10000);
    match read_configs(alloc, text) {
        Ok(configs) => Ok(configs),
        Err(_) => Err(Fail::from("refused")),
    }
}

/// Address, length of the subnet, loopback.
fn place_row(i: &Interface) -> (u32, u8, bool) {
    let len = match i.subnet {
        Some(subnet) => subnet.len(),
        None => 0,
    };
    (i.address, len, i.loopback)
}

/// Area, cost, passive for OSPF, up.
fn ospf_row(i: &Interface) -> (Option<u32>, u32, bool, bool) {
    (i.area, i.cost, i.ospf_passive, i.up)
}

/// Level 1, level 2, their metrics, passive for IS-IS.
fn isis_row(i: &Interface) -> (bool, bool, u32, u32, bool) {
    (i.level1, i.level2, i.metric1, i.metric2, i.isis_passive)
}

const PRINTED: &[u8] = b"Building configuration...

Current configuration : 1423 bytes
!
version 15.2
hostname edge-1
!
vrf definition Mgmt
 rd 65000:1
!
interface Loopback0
 ip address 192.0.2.1 255.255.255.255
!
interface GigabitEthernet0/0
 description to core
 ip address 198.51.100.1 255.255.255.252
 ip ospf network point-to-point
 ip ospf 1 area 0.0.0.0
 negotiation auto
!
interface GigabitEthernet0/1
 bandwidth 100000
 ip address 203.0.113.1 255.255.255.0
!
interface GigabitEthernet0/2
 vrf forwarding Mgmt
 ip address 10.0.0.5 255.255.255.0
!
interface GigabitEthernet0/3
 no ip address
 shutdown
!
router ospf 1
 router-id 192.0.2.1
 auto-cost reference-bandwidth 10000
 passive-interface default
 no passive-interface GigabitEthernet0/0
 network 192.0.2.0 0.0.0.255 area 0
 network 203.0.113.0 0.0.0.255 area 5
!
router bgp 65000
 neighbor 198.51.100.2 remote-as 65001
!
banner motd ^C
interface nothing
end
^C
line con 0
 logging synchronous
!
end
";

const PRINTED_INTERFACES: [(Option<u32>, u32, bool, bool); 5] = [
    (Some(0), 1, true, true),
    (Some(0), 10, false, true),
    (Some(5), 100, true, true),
    (None, 1, true, false),
    (None, 1, true, false),
];

/// What OSPF has of the interfaces of the printed configuration.
fn shows_printed(rt: &impl Abort, interfaces: &[Interface]) {
    assert_eq!(rt; interfaces.len(), 5);
    for (i, row) in interfaces.iter().zip(PRINTED_INTERFACES.iter()) {
        assert_eq!(rt; ospf_row(i), *row);
    }
}

#[test]
fn a_printed_configuration_is_read(rt: HostRuntime) -> Result<(), Fail> {
    let configs = read(&rt, rt.alloc(), PRINTED)?;
    assert_eq!(rt; configs.as_slice().len(), 1);
    let config = configs.as_slice().first().ok_or("no configuration")?;
    assert_eq!(rt; config.name.as_slice(), b"edge-1".as_slice());
    assert_eq!(rt;
        (
            config.process,
            config.isis,
            config.leak,
            config.distances.ospf
        ),
        (Some(1), false, false, 110)
    );
    shows_printed(&rt, config.interfaces.as_slice());
    Ok(())
}

const EACH_FORM: &[u8] = b"hostname R.1-a_B
banner login ^Cinterface X^C
interface Loopback 0
 ip address 10.0.0.1 255.255.255.252
 ip ospf network point-to-point
 ip ospf 7 area 0
interface GigabitEthernet0/1
 ip address 10.1.0.1 255.255.255.0
 no shutdown
 bandwidth 100000
 ip router isis A
 isis circuit-type level-1
 isis metric 20
 isis metric 30 level-1
interface Ethernet0
  ip address 10.2.0.1 255.255.255.0
  ip ospf network broadcast
  ip ospf cost 5
  isis metric 40 level-2
interface Ethernet1
 ip address 10.3.0.1 255.255.255.0
 shutdown
interface Ethernet2
 ip address 10.4.0.1 255.255.255.0
 no ip address
interface GigabitEthernet0/1
  isis metric 60
router ospf 7
 network 10.1.0.0 0.0.255.255 area 1
 network 10.0.0.0 0.255.255.255 area 2
 passive-interface default
 no passive-interface GigabitEthernet0/1
 auto-cost reference-bandwidth 1000
 area 1 stub
 area 1 stub no-summary
 area 1 default-cost 9
 area 0 range 10.4.0.1 255.255.0.0 not-advertise cost 6
 area 0 range 10.5.0.0 255.255.0.0
 area 0 range 10.4.0.0 255.255.0.0 advertise cost 8
 distance 120
 no compatible rfc1583
router ospf 8 vrf X
router isis A
 net 49.0001.1234.5678.9abc.00
 is-type level-1-2
 metric-style wide
 metric 50
 distance 115 ip
 passive-interface Ethernet0
 no passive-interface GigabitEthernet0/1
 redistribute isis ip level-2 into level-1
ip route vrf X 0.0.0.0 0.0.0.0 10.0.0.1
end
hostname R2
end
unread lines
";

/// The first of two configurations.
fn first_of_two(rt: &impl Abort, configs: Configs) -> Result<Config, Fail> {
    let mut configs = configs.into_vec();
    assert_eq!(rt; configs.len(), 2);
    let _second = configs.pop();
    Ok(configs.pop().ok_or("no configuration")?)
}

const FORM_PLACES: [(u32, u8, bool); 5] = [
    (167772161, 30, true),
    (167837697, 24, false),
    (167903233, 24, false),
    (167968769, 24, false),
    (0, 0, false),
];

const FORM_INTERFACES: [(bool, bool, u32, u32, bool); 5] = [
    (false, false, 10, 10, false),
    (true, false, 30, 60, false),
    (true, true, 50, 40, true),
    (false, false, 10, 10, false),
    (false, false, 10, 10, false),
];

const FORM_RANGES: [(u32, u8, bool, Option<u32>); 2] = [
    (168034304, 16, true, Some(8)),
    (168099840, 16, true, None),
];

/// The places of the interfaces of each form.
fn shows_places(rt: &impl Abort, interfaces: &[Interface]) {
    assert_eq!(rt; interfaces.len(), 5);
    for (i, row) in interfaces.iter().zip(FORM_PLACES.iter()) {
        assert_eq!(rt; place_row(i), *row);
    }
}

/// What IS-IS has of the interfaces of each form.
fn shows_interfaces(rt: &impl Abort, interfaces: &[Interface]) {
    for (i, row) in interfaces.iter().zip(FORM_INTERFACES.iter()) {
        assert_eq!(rt; isis_row(i), *row);
    }
}

/// The ranges of each form.
fn shows_ranges(rt: &impl Abort, ranges: &[Range]) {
    assert_eq!(rt; ranges.len(), 2);
    for (r, row) in ranges.iter().zip(FORM_RANGES.iter()) {
        assert_eq!(rt; (r.dest.base(), r.dest.len(), r.advertise, r.cost), *row);
    }
}

/// The names of each form.
fn shows_names(rt: &impl Abort, config: &Config) -> Result<(), Fail> {
    assert_eq!(rt; config.name.as_slice(), b"R.1-a_B".as_slice());
    assert_eq!(rt; config.tag.as_slice(), b"A".as_slice());
    assert_eq!(rt; config.isis_area.as_slice(), b"49.0001".as_slice());
    let loopback = config.interfaces.as_slice().first().ok_or("no interface")?;
    assert_eq!(rt; loopback.name.as_slice(), b"Loopback0".as_slice());
    Ok(())
}

/// The numbers of each form.
fn shows_numbers(rt: &impl Abort, config: &Config) -> Result<(), Fail> {
    assert_eq!(rt;
        (
            config.process,
            config.rfc1583,
            config.isis,
            config.system,
            config.leak
        ),
        (Some(7), false, true, 20015998343868, true)
    );
    assert_eq!(rt;
        (config.distances.ospf, config.distances.isis, config.levels),
        (120, 115, Levels::Both)
    );
    let stub = config.stubs.as_slice().first().ok_or("no stub area")?;
    assert_eq!(rt;
        (stub.area, stub.no_summary, stub.default_cost),
        (1, true, 9)
    );
    Ok(())
}

#[test]
fn each_form_of_a_line_is_read(rt: HostRuntime) -> Result<(), Fail> {
    let config = first_of_two(&rt, read(&rt, rt.alloc(), EACH_FORM)?)?;
    shows_names(&rt, &config)?;
    shows_numbers(&rt, &config)?;
    shows_places(&rt, config.interfaces.as_slice());
    shows_interfaces(&rt, config.interfaces.as_slice());
    shows_ranges(&rt, config.ranges.as_slice());
    Ok(())
}
