use net_addr::Prefix;
use net_model::{Net, Zone};
use std::test::Fail;
use test_networks::pair;

#[test]
fn two_routers_answer(rt: HostRuntime) -> Result<(), Fail> {
    let net = Net::build(rt.alloc(), pair(rt.alloc(), 7, 9)?)?;
    assert_eq!(rt; net.routers(), 2);
    assert_eq!(rt; net.number_of(b"R2"), Some(1));
    assert_eq!(rt; net.config(1).name.as_slice(), b"R2".as_slice());
    assert_eq!(rt; net.arc(Zone::Area(0), 0, 1), Some(7));
    let link = Prefix::around(0x0a00_0000, 28).ok_or("no prefix")?;
    assert_eq!(rt; net.connected(0, 0x0a00_000f), Some(link));
    assert!(rt; net.originates(1, link));
    Ok(())
}
