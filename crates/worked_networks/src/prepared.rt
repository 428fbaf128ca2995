use crate::configurations::read;
use design_file::{Settled, read_design, settle};
use isis_writer::prepared_text;
use net_addr::Bytes;
use net_model::Net;
use std::alloc::Global;
use std::process::Abort;
use std::test::Fail;

/// What a design settles for a network.
fn settled(alloc: Global, design: &[u8], net: &Net) -> Result<Settled, Fail> {
    match read_design(alloc, design) {
        Ok(design) => Ok(settle(alloc, &design, net)?),
        Err(_) => Err(Fail::from("no design")),
    }
}

/// A text of configurations with the lines of a design.
fn prepared(rt: &impl Abort, alloc: Global, text: &[u8], design: &[u8]) -> Result<Bytes, Fail> {
    let net = Net::build(alloc, read(rt, alloc, text)?)?;
    let settled = settled(alloc, design, &net)?;
    assert!(rt; text.len() < 10000);
    Ok(prepared_text(alloc, text, &net, &settled)?)
}

#[test]
fn the_lines_of_a_loopback(rt: HostRuntime) -> Result<(), Fail> {
    let text = b"hostname R1
interface Loopback0
 ip address 10.0.0.1 255.255.255.255
router ospf 1
 network 0.0.0.0 255.255.255.255 area 0
end
";
    let lines = prepared(&rt, rt.alloc(), text.as_slice(), b"area = \"49.0001\"\n")?;
    let wanted = b"hostname R1
interface Loopback0
 ip address 10.0.0.1 255.255.255.255
router ospf 1
 network 0.0.0.0 255.255.255.255 area 0
router isis
 net 49.0001.0000.0000.0001.00
 is-type level-2-only
 metric-style wide
 distance 255
 passive-interface Loopback0
interface Loopback0
 isis metric 10
end
";
    assert_eq!(rt; lines.as_slice(), wanted.as_slice());
    Ok(())
}

/// Carriage returns, a banner that holds `end`, an old metric line, and no line feed at the end.
const TWO: &[u8] = b"hostname R2\r
interface Loopback0\r
 ip address 10.0.0.2 255.255.255.255\r
banner motd ^C\r
end\r
^C\r
end\r
hostname R1
interface Ethernet0
 ip address 10.0.12.1 255.255.255.252
 isis metric 7
router ospf 1
 network 10.0.0.0 0.0.255.255 area 0
end";

#[test]
fn the_lines_of_two_routers(rt: HostRuntime) -> Result<(), Fail> {
    let design = b"area = \"49.0001\"\n[routers.R2.interfaces.Loopback0]\nlevel = \"1\"\n";
    let lines = prepared(&rt, rt.alloc(), TWO, design.as_slice())?;
    let wanted = b"hostname R2\r
interface Loopback0\r
 ip address 10.0.0.2 255.255.255.255\r
banner motd ^C\r
end\r
^C\r
router isis
 net 49.0001.0000.0000.0002.00
 is-type level-2-only
 metric-style wide
 distance 255
 passive-interface Loopback0
interface Loopback0
 isis metric 10
end\r
hostname R1
interface Ethernet0
 ip address 10.0.12.1 255.255.255.252
 isis metric 7
router ospf 1
 network 10.0.0.0 0.0.255.255 area 0
router isis
 net 49.0001.0000.0000.0001.00
 is-type level-2-only
 metric-style wide
 distance 255
interface Ethernet0
 ip router isis
 isis circuit-type level-1-2
 isis metric 10
 isis metric 10 level-1
 isis metric 10 level-2
end";
    assert_eq!(rt; lines.as_slice(), wanted.as_slice());
    Ok(())
}

#[test]
fn a_router_that_leaks(rt: HostRuntime) -> Result<(), Fail> {
    let text = b"hostname R1
interface Ethernet0
 ip address 10.0.12.1 255.255.255.252
end
!
line con 0
";
    let design = b"area = \"49\"
level = \"1-2\"
[routers.R1]
leak = true
metric = 20
[routers.R1.interfaces.Ethernet0]
level = \"2\"
";
    let lines = prepared(&rt, rt.alloc(), text.as_slice(), design.as_slice())?;
    let wanted = b"hostname R1
interface Ethernet0
 ip address 10.0.12.1 255.255.255.252
router isis
 net 49.0000.0000.0001.00
 is-type level-1-2
 metric-style wide
 distance 255
 redistribute isis ip level-2 into level-1
interface Ethernet0
 ip router isis
 isis circuit-type level-2-only
 isis metric 20
end
";
    assert_eq!(rt; lines.as_slice(), wanted.as_slice());
    Ok(())
}
