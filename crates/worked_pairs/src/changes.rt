use change_orders::{TwoKind, TwoRefusal, read_two, two_laws, two_refusal_text};
use net_model::Net;
use std::test::Fail;
use test_networks::bare;

#[test]
fn an_order_file_names_the_waves_of_its_changes(rt: HostRuntime) -> Result<(), Fail> {
    let net = Net::build(rt.alloc(), bare(rt.alloc(), 2)?)?;
    assert_eq!(rt; net.routers(), 2);
    for (text, ranks) in [
        (
            b"order 3\nwave R1:1 R2:1\nwave R1:2 R2:2\nchain R2:1 R1:2\n".as_slice(),
            [0, 1, 0, 1],
        ),
        (
            b"order 3\r\nwave R2:1\r\nwave R1:1\tR2:2\r\nwave R1:2",
            [1, 2, 0, 1],
        ),
    ] {
        let waves = read_two(rt.alloc(), &net, text)?;
        assert_eq!(rt; waves.ranks(), ranks.as_slice(), "{text:?}");
    }
    two_laws();
    Ok(())
}

#[test]
fn the_lowest_kind_of_the_least_faulty_line_is_carried(rt: HostRuntime) -> Result<(), Fail> {
    let net = Net::build(rt.alloc(), bare(rt.alloc(), 2)?)?;
    assert_eq!(rt; net.routers(), 2);
    for (text, least, its) in [
        (b"".as_slice(), 1, TwoKind::Form),
        (b"order 3 \nwave R1:1 R2:1\n", 1, TwoKind::Form),
        (b"order 3\nwave R2:1 R9:1 R1:1\n", 2, TwoKind::Form),
        (b"order 3\nwave R1:1 R9:1\n", 2, TwoKind::NotInNetwork),
        (b"order 3\nwave R1:1 R1:1\n", 2, TwoKind::Twice),
        (b"order 3\nwave R1:2 R1:1\n", 2, TwoKind::Form),
        (b"order 3\nwave R1:1 R1:2\n", 2, TwoKind::Early),
        (
            b"order 3\nwave R1:1\nwave R1:2\nwave R1:2\n",
            4,
            TwoKind::Twice,
        ),
        (b"order 3\nwave R1:3\n", 2, TwoKind::Form),
        (b"order 3\nwave R1\n", 2, TwoKind::Form),
        (b"order 3\nwave :1\n", 2, TwoKind::Form),
        (b"order 3\nwave\n", 2, TwoKind::Form),
        (b"order 3\nchain R1:1\n", 2, TwoKind::Form),
        (b"order 3\nwave R1:1\nchain R1:1\n", 4, TwoKind::Missing),
        (
            b"order 3\nwave R1:1\nchain R1:1\nwave R2:1\n",
            4,
            TwoKind::Form,
        ),
        (b"order 3\n", 2, TwoKind::Missing),
    ] {
        match read_two(rt.alloc(), &net, text) {
            Err(TwoRefusal::Bad { line, kind }) => {
                assert_eq!(rt; line, least, "{text:?}");
                assert_eq!(rt; kind, its, "{text:?}");
            }
            _ => panic!(&rt; "{text:?} is refused"),
        }
    }
    Ok(())
}

#[test]
fn a_refusal_names_its_file(rt: HostRuntime) -> Result<(), Fail> {
    let text = two_refusal_text(rt.alloc(), "o.txt", 2, TwoKind::Early)?;
    assert_eq!(rt; text.as_slice(), b"refused o.txt 2 Early\n".as_slice());
    Ok(())
}
