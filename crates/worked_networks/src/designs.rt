use design_file::{DesignKind, DesignRefusal, Settled, design_laws, read_design, settle};
use ios_reader::read_configs;
use net_model::{Levels, Net};
use std::alloc::Global;
use std::process::Abort;
use std::test::Fail;

/// The least fault of a text as a design.
fn fault_of(alloc: Global, text: &[u8]) -> Result<(DesignKind, String), Fail> {
    match read_design(alloc, text) {
        Err(DesignRefusal::Bad { kind, path }) => Ok((kind, text_of(alloc, path.as_slice())?)),
        _ => Err(Fail::from("no fault")),
    }
}

/// Bytes as text.
fn text_of(alloc: Global, bytes: &[u8]) -> Result<String, Fail> {
    match std::str::from_utf8(bytes) {
        Ok(text) => Ok(String::from_str(alloc, text)?),
        Err(_) => Err(Fail::from("not UTF-8")),
    }
}

#[test]
fn a_text_is_refused_with_its_least_fault(rt: HostRuntime) -> Result<(), Fail> {
    for (text, kind, path) in [
        (b"".as_slice(), DesignKind::BadArea, "area"),
        (
            b"area = \"49.0001\"\nspeed = 1\n",
            DesignKind::UnknownKey,
            "speed",
        ),
        (
            b"area = \"49.0001\"\nlevel = \"3\"\n",
            DesignKind::BadLevel,
            "level",
        ),
        (
            b"area = \"49.0001\"\nlevel = 2\n",
            DesignKind::WrongKind,
            "level",
        ),
        (
            b"area = \"49.0001\"\nmetric = 0\n",
            DesignKind::BadMetric,
            "metric",
        ),
        (
            b"area = \"49.0001\"\nmetric = 1.0\n",
            DesignKind::WrongKind,
            "metric",
        ),
        (b"area = \"49.", DesignKind::NotToml, "-"),
        (b"area = \"49.0001\"\n#\xFF\n", DesignKind::NotToml, "-"),
        (
            b"area = \"49.0001\"\n[[routers]]\n",
            DesignKind::WrongKind,
            "routers",
        ),
        (
            b"area = \"49.0001\"\n[routers.R1]\nleak = 1\n",
            DesignKind::WrongKind,
            "routers.R1.leak",
        ),
        (
            b"area = \"49.0001\"\n[routers.\"R.1\".interfaces.\"a.b\"]\nleak = true\n",
            DesignKind::UnknownKey,
            "routers.R.1.interfaces.a.b.leak",
        ),
        (
            b"metric = 0\n[routers.R2]\narea = \"4\"\n[routers.R1]\narea = \"4\"\n",
            DesignKind::BadArea,
            "area",
        ),
    ] {
        let (its, at) = fault_of(rt.alloc(), text)?;
        assert_eq!(rt; its, kind, "{text:?}");
        assert_eq!(rt; at.as_str(), path, "{text:?}");
    }
    design_laws();
    Ok(())
}

/// One router with three interfaces that have an address, two of them in an area, and one that has none.
const PLAIN: &[u8] = b"hostname R1
interface Loopback0
 ip address 10.0.0.1 255.255.255.255
interface Ethernet0
 ip address 10.0.12.1 255.255.255.252
 shutdown
interface Ethernet1
 ip address 10.1.0.1 255.255.255.0
interface Ethernet2
 shutdown
router ospf 1
 network 10.0.0.0 0.0.255.255 area 0
end
";

/// One router that has an IS-IS process.
const MOVED: &[u8] = b"hostname R1
interface Loopback0
 ip address 10.0.0.1 255.255.255.255
router isis
 net 49.0001.0000.0000.0001.00
 metric-style wide
 distance 255
end
";

/// The network of a text.
fn network(rt: &impl Abort, alloc: Global, text: &[u8]) -> Result<Net, Fail> {
    assert!(rt; text.len() < 10000);
    match read_configs(alloc, text) {
        Ok(configs) => Ok(Net::build(alloc, configs)?),
        Err(_) => Err(Fail::from("refused")),
    }
}

/// What a design settles for a network, or its least fault.
fn settled(
    alloc: Global,
    design: &[u8],
    net: &Net,
) -> Result<Result<Settled, (DesignKind, String)>, Fail> {
    let design = match read_design(alloc, design) {
        Ok(design) => design,
        Err(_) => return Err(Fail::from("no design")),
    };
    match settle(alloc, &design, net) {
        Ok(settled) => Ok(Ok(settled)),
        Err(DesignRefusal::Bad { kind, path }) => {
            Ok(Err((kind, text_of(alloc, path.as_slice())?)))
        }
        Err(DesignRefusal::OutOfMemory) => Err(Fail::from("memory")),
    }
}

#[test]
fn a_design_is_refused_for_a_network(rt: HostRuntime) -> Result<(), Fail> {
    let plain = network(&rt, rt.alloc(), PLAIN)?;
    let moved = network(&rt, rt.alloc(), MOVED)?;
    for (net, text, kind, path) in [
        (
            &plain,
            b"area = \"49\"\n[routers.R9]\n".as_slice(),
            DesignKind::UnknownRouter,
            "routers.R9",
        ),
        (
            &moved,
            b"area = \"49\"\n",
            DesignKind::AlreadyIsis,
            "routers.R1",
        ),
        (
            &plain,
            b"area = \"49\"\n[routers.R1.interfaces.Ethernet2]\n",
            DesignKind::UnknownInterface,
            "routers.R1.interfaces.Ethernet2",
        ),
        (
            &moved,
            b"area = \"49\"\n[routers.R1.interfaces.Ethernet9]\n",
            DesignKind::UnknownInterface,
            "routers.R1.interfaces.Ethernet9",
        ),
    ] {
        match settled(rt.alloc(), text, net)? {
            Err((its, at)) => {
                assert_eq!(rt; its, kind, "{text:?}");
                assert_eq!(rt; at.as_str(), path, "{text:?}");
            }
            Ok(_) => panic!(&rt; "{text:?} is refused"),
        }
    }
    Ok(())
}

#[test]
fn a_design_is_settled_for_a_network(rt: HostRuntime) -> Result<(), Fail> {
    let plain = network(&rt, rt.alloc(), PLAIN)?;
    let text = b"area = \"49.0001\"
level = \"1-2\"
metric = 20
[routers.R1]
area = \"49.0002\"
leak = true
[routers.R1.interfaces.Loopback0]
passive = false
[routers.R1.interfaces.Ethernet1]
metric = 7
level = \"1\"
";
    let Ok(settled) = settled(rt.alloc(), text.as_slice(), &plain)? else {
        panic!(&rt; "the design is settled");
    };
    let routers = settled.as_slice();
    assert_eq!(rt; routers.len(), 1);
    let router = &routers[0];
    assert_eq!(rt; router.area.as_slice(), b"49.0002".as_slice());
    assert_eq!(rt; router.levels, Levels::Both);
    assert!(rt; router.leak);
    let interfaces = router.interfaces.as_slice();
    assert_eq!(rt; interfaces.len(), 3);
    for (i, name, metric, passive, circuit) in [
        (&interfaces[0], b"Loopback0".as_slice(), 20, false, None),
        (&interfaces[1], b"Ethernet0", 20, false, None),
        (&interfaces[2], b"Ethernet1", 7, false, Some(Levels::One)),
    ] {
        assert_eq!(rt; i.name.as_slice(), name);
        assert_eq!(rt;
            (i.metric, i.passive, i.circuit),
            (metric, passive, circuit),
            "{name:?}"
        );
    }
    Ok(())
}
