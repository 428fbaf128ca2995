ghost use Rattle.std.specs.Prelude.{◌<◌, ◌^◌, length};

use ios_reader::read_configs;
use net_model::Net;
use ospf_pair::{PairNet, PairRefusal, pair_laws, pair_refusal_text, pair_scripts};
use std::alloc::Global;
use std::test::Fail;
use step_scripts::read_waves;

/// The routers R1 and R2 on a link, with OSPF process 1.
const OLD: &[u8] = b"hostname R1
interface E1
 ip address 10.0.0.1 255.255.255.252
 ip ospf cost 1
 ip ospf 1 area 0
router ospf 1
end
hostname R2
interface E1
 ip address 10.0.0.2 255.255.255.252
 ip ospf cost 1
 ip ospf 1 area 0
router ospf 1
end
";

/// The same routers with OSPF process 2, at another cost and in another area.
const NEW: &[u8] = b"hostname R1
interface E1
 ip address 10.0.0.1 255.255.255.252
 ip ospf cost 7
 ip ospf 2 area 3
router ospf 2
 distance 255
end
hostname R2
interface E1
 ip address 10.0.0.2 255.255.255.252
 ip ospf cost 1
 ip ospf 2 area 3
router ospf 2
 distance 255
end
";

/// R1 is not idle, and R2 has an interface of another name.
const OTHER_NAME: &[u8] = b"hostname R1
interface E1
 ip address 10.0.0.1 255.255.255.252
 ip ospf cost 1
 ip ospf 2 area 0
router ospf 2
end
hostname R2
interface E2
 ip address 10.0.0.2 255.255.255.252
 ip ospf cost 1
 ip ospf 2 area 0
router ospf 2
 distance 255
end
";

/// R3 in place of R1.
const OTHER_ROUTER: &[u8] = b"hostname R2
interface E1
 ip address 10.0.0.2 255.255.255.252
 ip ospf cost 1
 ip ospf 2 area 0
router ospf 2
 distance 255
end
hostname R3
end
";

/// R1 is not idle.
const LIVE: &[u8] = b"hostname R1
interface E1
 ip address 10.0.0.1 255.255.255.252
 ip ospf cost 1
 ip ospf 2 area 0
router ospf 2
end
hostname R2
interface E1
 ip address 10.0.0.2 255.255.255.252
 ip ospf cost 1
 ip ospf 2 area 0
router ospf 2
 distance 255
end
";

/// The network of the configurations of a text.
fn network(alloc: Global, text: &[u8]) -> Result<Net, Fail>
    requires { length text.now < 2 ^ 26 }
{
    Ok(Net::build(alloc, read_configs(alloc, text)?)?)
}

#[test]
fn a_pair_has_a_script(rt: HostRuntime) -> Result<(), Fail> {
    let pair = PairNet::build(
        rt.alloc(),
        network(rt.alloc(), OLD)?,
        network(rt.alloc(), NEW)?,
    )?;
    assert_eq!(rt; pair.old().routers(), 2);
    assert_eq!(rt; pair.new_net().routers(), 2);
    let order = read_waves(rt.alloc(), pair.old(), b"order 1\nR2\nR1\n")?;
    let text = pair_scripts(rt.alloc(), &pair, &order)?;
    assert_eq!(rt;
        text.as_slice(),
        b"! 1 R2
router ospf 2
 distance 115
! 2 R2
router ospf 1
 distance 255
! 3 R1
router ospf 2
 distance 115
! 4 R1
router ospf 1
 distance 255
"
            .as_slice()
    );
    pair_laws();
    Ok(())
}

#[test]
fn the_first_kind_for_all_routers_is_the_refusal(rt: HostRuntime) -> Result<(), Fail> {
    for (new, refusal) in [
        (OTHER_ROUTER, b"refused pair RouterMissing R1\n".as_slice()),
        (OTHER_NAME, b"refused pair InterfacesDiffer R2\n"),
        (OLD, b"refused pair ProcessClash R1\n"),
        (LIVE, b"refused pair NotIdle R1\n"),
    ] {
        let old = network(rt.alloc(), OLD)?;
        let new = network(rt.alloc(), new)?;
        match PairNet::build(rt.alloc(), old, new) {
            Ok(_) => panic!(&rt; "{refusal:?}"),
            Err(PairRefusal::OutOfMemory) => panic!(&rt; "memory ran out"),
            Err(other) => {
                let text = pair_refusal_text(rt.alloc(), &other)?;
                assert_eq!(rt; text.as_slice(), refusal);
            }
        }
    }
    Ok(())
}
