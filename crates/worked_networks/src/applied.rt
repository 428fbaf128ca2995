use crate::configurations::read;
use applied_changes::apply;
use net_addr::Bytes;
use net_model::Net;
use std::alloc::Global;
use std::process::Abort;
use std::test::Fail;

/// The triangle of `examples/triangle`, less its links: R1 of it has both processes.
const NETWORK: &[u8] = b"hostname R1
interface Loopback0
 ip address 10.0.0.1 255.255.255.255
 ip router isis
router ospf 1
 network 10.0.0.0 0.0.255.255 area 0
router isis
 net 49.0001.0000.0000.0001.00
 is-type level-2-only
 metric-style wide
 distance 255
end
hostname R2
interface Loopback0
 ip address 10.0.0.2 255.255.255.255
end
hostname R3
interface Loopback0
 ip address 10.0.0.3 255.255.255.255
end
";

const FIRST: &[u8] = b"hostname R1
interface Loopback0
 ip address 10.0.0.1 255.255.255.255
 ip router isis
router ospf 1
 network 10.0.0.0 0.0.255.255 area 0
router isis
 net 49.0001.0000.0000.0001.00
 is-type level-2-only
 metric-style wide
 distance 255
";

/// The file of R1 after so many changes along the order R1 R2 R3.
fn applied(rt: &impl Abort, alloc: Global, changes: u32) -> Result<Bytes, Fail> {
    let net = Net::build(alloc, read(rt, alloc, NETWORK)?)?;
    let text = file(alloc, b"")?;
    assert!(rt; text.as_slice().len() < 10000);
    Ok(apply(alloc, &net, [0, 1, 2].as_slice(), changes, text.as_slice())?)
}

/// The file of R1 with these lines before its `end` line.
fn file(alloc: Global, lines: &[u8]) -> Result<Bytes, Fail> {
    let mut text = Vec::new(alloc);
    text.extend_from_slice(FIRST)?;
    text.extend_from_slice(lines)?;
    text.extend_from_slice(b"end\n")?;
    Ok(Bytes::from_vec(text))
}

#[test]
fn the_lines_of_changes_stand_before_the_end(rt: HostRuntime) -> Result<(), Fail> {
    for (changes, lines) in [
        (0, b"".as_slice()),
        (1, b"router isis\n distance 115\n"),
        (
            2,
            b"router isis\n distance 115\nrouter ospf 1\n distance 255\n",
        ),
        (
            6,
            b"router isis\n distance 115\nrouter ospf 1\n distance 255\n",
        ),
    ] {
        let text = applied(&rt, rt.alloc(), changes)?;
        let wanted = file(rt.alloc(), lines)?;
        assert_eq!(rt; text.as_slice(), wanted.as_slice(), "{changes}");
    }
    Ok(())
}
