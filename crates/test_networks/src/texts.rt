use std::alloc::{AllocError as OutOfMemory, Global};

/// A link: the numbers of its two routers, the lower first, its OSPF cost and its IS-IS metric.
pub type Link = (u32, u32, u32, u32);

/// OSPF prefers the way of R1 to R3 over R2, IS-IS the link.
pub const TRIANGLE: [Link; 3] = [(1, 2, 1, 10), (1, 3, 10, 10), (2, 3, 1, 100)];

/// The triangle, with R4 beside R3 and the preferences towards it turned round: no order of it is safe.
pub const SQUARE: [Link; 5] = [
    (1, 2, 1, 10),
    (1, 3, 10, 10),
    (1, 4, 1, 100),
    (2, 3, 1, 100),
    (2, 4, 10, 10),
];

/// The configurations of routers with these links, all in area 0 and at level 2, where the OSPF of each has the distance 110.
pub fn linked_text(alloc: Global, routers: u8, links: &[Link]) -> Result<String, OutOfMemory> {
    let mut text = String::new(alloc);
    for router in 1..u32::from(routers) + 1 {
        push_router(alloc, &mut text, router, links, "")?;
    }
    Ok(text)
}

/// The configurations of the triangle, where R1 has this line more under OSPF, with its blank and its line feed.
pub fn triangle_text(alloc: Global, line: &str) -> Result<String, OutOfMemory> {
    let mut text = String::new(alloc);
    push_router(alloc, &mut text, 1, &TRIANGLE, line)?;
    push_router(alloc, &mut text, 2, &TRIANGLE, "")?;
    push_router(alloc, &mut text, 3, &TRIANGLE, "")?;
    Ok(text)
}

/// Adds the configuration of a router with these links, and this line under OSPF.
fn push_router(
    alloc: Global,
    text: &mut String,
    router: u32,
    links: &[Link],
    line: &str,
) -> Result<(), OutOfMemory> {
    text.push_str(&format!(in alloc; "hostname R{router}\ninterface Loopback0\n")?)?;
    text.push_str(&format!(in alloc; " ip address 10.0.0.{router} 255.255.255.255\n")?)?;
    text.push_str(" ip router isis\n")?;
    for link in links {
        push_link(alloc, text, router, *link)?;
    }
    text.push_str("router ospf 1\n network 10.0.0.0 0.0.255.255 area 0\n")?;
    text.push_str(line)?;
    text.push_str(&format!(in alloc; "router isis\n net 49.0001.0000.0000.000{router}.00\n")?)?;
    text.push_str(" is-type level-2-only\n metric-style wide\n distance 255\nend\n")
}

/// Adds the interface of a router to a link, where it has one.
fn push_link(
    alloc: Global,
    text: &mut String,
    router: u32,
    (low, high, cost, metric): Link,
) -> Result<(), OutOfMemory> {
    if router != low && router != high {
        return Ok(());
    }
    let host = if router == low { 1 } else { 2 };
    text.push_str(&format!(in alloc; "interface GigabitEthernet0/{low}{high}\n")?)?;
    text.push_str(&format!(in alloc; " ip address 10.0.{low}{high}.{host} 255.255.255.252\n")?)?;
    text.push_str(&format!(in alloc; " ip ospf cost {cost}\n")?)?;
    text.push_str(&format!(in alloc; " ip router isis\n isis metric {metric}\n")?)
}

/// The configurations of four routers, of which R2 and R4 are border routers with the range 10.1.0.0/16 of area 1; IS-IS
/// reaches what the range covers the other way round.
pub const RANGE: &str = "hostname R1
interface Loopback0
 ip address 10.0.0.1 255.255.255.255
 ip router isis
interface GigabitEthernet0/0
 ip address 10.0.12.1 255.255.255.252
 ip ospf cost 1
 ip router isis
 isis metric 10
interface GigabitEthernet0/1
 ip address 10.0.14.1 255.255.255.252
 ip ospf cost 5
 ip router isis
 isis metric 10
router ospf 1
 network 10.0.0.0 0.0.255.255 area 0
router isis
 net 49.0001.0000.0000.0001.00
 is-type level-2-only
 metric-style wide
 distance 255
end
hostname R2
interface Loopback0
 ip address 10.0.0.2 255.255.255.255
 ip router isis
interface GigabitEthernet0/0
 ip address 10.0.12.2 255.255.255.252
 ip ospf cost 1
 ip router isis
 isis metric 10
interface GigabitEthernet0/1
 ip address 10.1.23.1 255.255.255.252
 ip ospf cost 10
 ip router isis
 isis metric 100
interface GigabitEthernet0/9
 ip address 10.1.2.1 255.255.255.0
 ip ospf cost 1
 ip router isis
router ospf 1
 network 10.0.0.0 0.0.255.255 area 0
 network 10.1.0.0 0.0.255.255 area 1
 area 1 range 10.1.0.0 255.255.0.0
 passive-interface GigabitEthernet0/9
router isis
 net 49.0001.0000.0000.0002.00
 is-type level-2-only
 metric-style wide
 distance 255
end
hostname R3
interface Loopback0
 ip address 10.1.0.3 255.255.255.255
 ip router isis
interface GigabitEthernet0/0
 ip address 10.1.23.2 255.255.255.252
 ip ospf cost 1
 ip router isis
 isis metric 100
interface GigabitEthernet0/1
 ip address 10.1.34.1 255.255.255.252
 ip ospf cost 1
 ip router isis
 isis metric 10
router ospf 1
 network 10.1.0.0 0.0.255.255 area 1
router isis
 net 49.0001.0000.0000.0003.00
 is-type level-2-only
 metric-style wide
 distance 255
end
hostname R4
interface Loopback0
 ip address 10.0.0.4 255.255.255.255
 ip router isis
interface GigabitEthernet0/0
 ip address 10.0.14.2 255.255.255.252
 ip ospf cost 5
 ip router isis
 isis metric 10
interface GigabitEthernet0/1
 ip address 10.1.34.2 255.255.255.252
 ip ospf cost 1
 ip router isis
 isis metric 10
router ospf 1
 network 10.0.0.0 0.0.255.255 area 0
 network 10.1.0.0 0.0.255.255 area 1
 area 1 range 10.1.0.0 255.255.0.0
router isis
 net 49.0001.0000.0000.0004.00
 is-type level-2-only
 metric-style wide
 distance 255
end
";
