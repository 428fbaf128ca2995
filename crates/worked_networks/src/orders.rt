use net_model::Net;
use std::test::Fail;
use step_scripts::{OrderKind, OrderRefusal, Version, read_waves, waves_laws};
use test_networks::bare;

#[test]
fn an_order_file_names_its_waves(rt: HostRuntime) -> Result<(), Fail> {
    let net = Net::build(rt.alloc(), bare(rt.alloc(), 3)?)?;
    assert_eq!(rt; net.routers(), 3);
    for (text, version, ranks) in [
        (b"order 1\nR2\nR1\nR3\n".as_slice(), Version::One, [1, 0, 2]),
        (b"order 1\r\nR2\r\nR1\r\nR3", Version::One, [1, 0, 2]),
        (b"order 2\nwave R2\nwave R3 R1\n", Version::Two, [1, 0, 1]),
        (
            b"order 2\nwave\tR3 R1\nwave R2\nchain R1\tR2",
            Version::Two,
            [0, 1, 0],
        ),
    ] {
        let file = read_waves(rt.alloc(), &net, text)?;
        assert_eq!(rt; file.version, version, "{text:?}");
        assert_eq!(rt; file.waves.ranks(), ranks.as_slice(), "{text:?}");
    }
    waves_laws();
    Ok(())
}

#[test]
fn the_least_faulty_line_is_carried(rt: HostRuntime) -> Result<(), Fail> {
    let net = Net::build(rt.alloc(), bare(rt.alloc(), 3)?)?;
    assert_eq!(rt; net.routers(), 3);
    for (text, least, its) in [
        (b"".as_slice(), 1, OrderKind::Header),
        (b"order  1\nR1\nR2\nR3\n", 1, OrderKind::Header),
        (b"order 1\nR9\nR9\n", 2, OrderKind::NotInNetwork),
        (b"order 1\nR1\n\n", 3, OrderKind::NotInNetwork),
        (b"order 1\nR1 \nR2\nR3\n", 2, OrderKind::NotInNetwork),
        (b"order 1\nR1\nR2\nR1\n", 4, OrderKind::Twice),
        (b"order 1\nR1\nR2\n", 4, OrderKind::Missing),
        (b"order 1\n", 2, OrderKind::Missing),
        (b"order 2\nR1\n", 2, OrderKind::Wave),
        (b"order 2\nwave R1  R2\n", 2, OrderKind::Wave),
        (b"order 2\nwave R1 R1 R9\n", 2, OrderKind::NotInNetwork),
        (b"order 2\nwave R1 R2\nwave R3 R1\n", 3, OrderKind::Twice),
        (
            b"order 2\nwave R1 R3\nwave R2\nchain R2 R1\n",
            4,
            OrderKind::Chain,
        ),
        (
            b"order 2\nwave R1 R3\nwave R2\nchain R1\n",
            4,
            OrderKind::Chain,
        ),
        (b"order 2\nwave R1\nchain R1\nwave R2\n", 4, OrderKind::Wave),
        (b"order 2\nwave R1\nchain R1\n", 4, OrderKind::Missing),
    ] {
        match read_waves(rt.alloc(), &net, text) {
            Err(OrderRefusal::Bad { line, kind }) => {
                assert_eq!(rt; line, least, "{text:?}");
                assert_eq!(rt; kind, its, "{text:?}");
            }
            _ => panic!(&rt; "{text:?} is refused"),
        }
    }
    Ok(())
}
