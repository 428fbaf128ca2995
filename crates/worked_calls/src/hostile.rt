use crate::calls::{FilesOf, run_command};
use migrate_cli::Status;
use std::alloc::{AllocError, Global};
use std::process::Abort;
use std::test::Fail;

/// The triangle, with an order of its routers.
const TRIANGLE: FilesOf<'static> = &[
    ("o.txt", b"order 1\nR1\nR2\nR3\n"),
    ("r1.cfg", R1),
    ("r2.cfg", R2),
    ("r3.cfg", R3),
];

#[test]
fn each_read_of_the_triangle_and_the_first_write_fail(rt: HostRuntime) -> Result<(), Fail> {
    for (failing, pieces, status, text) in [
        (0, 1, Status::Done, "safe 6\n"),
        (1, 1, Status::ReadFault, "read fault o.txt\n"),
        (2, 1, Status::ReadFault, "read fault r1.cfg\n"),
        (3, 1, Status::ReadFault, "read fault r2.cfg\n"),
        (4, 1, Status::ReadFault, "read fault r3.cfg\n"),
        (0, 0, Status::WriteFault, ""),
        (1, 0, Status::WriteFault, ""),
        (4, 0, Status::WriteFault, ""),
    ] {
        let outcome = run_command(rt.alloc(), "check", TRIANGLE, failing, pieces)?;
        assert_eq!(rt; outcome.status, status);
        assert_eq!(rt; outcome.out.all.as_slice(), text.as_bytes());
    }
    Ok(())
}

/// Checks the triangle with another text of R1, which has to be refused at a line of this beginning.
fn is_refused(
    rt: &impl Abort,
    alloc: Global,
    first: &[u8],
    beginning: &str,
) -> Result<(), AllocError> {
    let files = [TRIANGLE[0], ("r1.cfg", first), TRIANGLE[2], TRIANGLE[3]];
    let outcome = run_command(alloc, "check", &files, 0, 1)?;
    assert_eq!(rt; outcome.status, Status::Refused);
    assert!(rt; outcome.out.all.as_slice().starts_with(beginning.as_bytes()));
    Ok(())
}

#[test]
fn a_configuration_that_is_cut_before_its_end_is_refused(rt: HostRuntime) -> Result<(), Fail> {
    // It ends with the `d` of `end` and a line feed.
    for length in 1..R1.len() - 1 {
        is_refused(&rt, rt.alloc(), &R1[..length], "refused r1.cfg ")?;
    }
    is_refused(&rt, rt.alloc(), b"", "refused r1.cfg 1 NoEnd\n")?;
    Ok(())
}

/// R1 of the triangle.
const R1: &[u8] = b"hostname R1
interface Loopback0
 ip address 10.0.0.1 255.255.255.255
 ip router isis
interface GigabitEthernet0/0
 ip address 10.0.12.1 255.255.255.252
 ip ospf cost 1
 ip router isis
 isis metric 10
interface GigabitEthernet0/1
 ip address 10.0.13.1 255.255.255.252
 ip ospf cost 10
 ip router isis
 isis metric 10
router ospf 1
 network 10.0.0.0 0.0.255.255 area 0
router isis
 net 49.0001.0000.0000.0001.00
 is-type level-2-only
 metric-style wide
 distance 255
end
";

/// R2 of the triangle.
const R2: &[u8] = b"hostname R2
interface Loopback0
 ip address 10.0.0.2 255.255.255.255
 ip router isis
interface GigabitEthernet0/0
 ip address 10.0.12.2 255.255.255.252
 ip ospf cost 1
 ip router isis
 isis metric 10
interface GigabitEthernet0/1
 ip address 10.0.23.1 255.255.255.252
 ip ospf cost 1
 ip router isis
 isis metric 100
router ospf 1
 network 10.0.0.0 0.0.255.255 area 0
router isis
 net 49.0001.0000.0000.0002.00
 is-type level-2-only
 metric-style wide
 distance 255
end
";

/// R3 of the triangle.
const R3: &[u8] = b"hostname R3
interface Loopback0
 ip address 10.0.0.3 255.255.255.255
 ip router isis
interface GigabitEthernet0/0
 ip address 10.0.13.2 255.255.255.252
 ip ospf cost 10
 ip router isis
 isis metric 10
interface GigabitEthernet0/1
 ip address 10.0.23.2 255.255.255.252
 ip ospf cost 1
 ip router isis
 isis metric 100
router ospf 1
 network 10.0.0.0 0.0.255.255 area 0
router isis
 net 49.0001.0000.0000.0003.00
 is-type level-2-only
 metric-style wide
 distance 255
end
";
