ghost use Rattle.std.specs.Prelude.{◌≡◌, ◌≤◌, ◌<◌, IfSome};

use anyhow::Result;
use std::alloc::Global;

/// How many bytes a file has at most, 16 MiB.
const FILE_MOST: usize = 16_777_216;

/// How many bytes a design has at most, 1 MiB.
const DESIGN_MOST: usize = 1_048_576;

/// The bytes of a file that is made since it would be long, None where the name isn't that of one.
pub fn made(alloc: Global, name: &str) -> Result<Option<Vec<u8>>> {
    let text = match name {
        "made/16-mib.cfg" => comment(alloc, "!", FILE_MOST)?,
        "made/16-mib-and-a-byte.cfg" => comment(alloc, "!", FILE_MOST + 1)?,
        "made/alone-up-to-16-mib.cfg" => filled(alloc, ALONE, FILE_MOST)?,
        "made/alone-up-to-16-mib-and-a-byte.cfg" => filled(alloc, ALONE, FILE_MOST + 1)?,
        "made/1-mib.toml" => comment(alloc, "#", DESIGN_MOST)?,
        "made/1-mib-and-a-byte.toml" => comment(alloc, "#", DESIGN_MOST + 1)?,
        "made/2000-loopbacks.cfg" => loopbacks(alloc, 2000)?,
        "made/2001-loopbacks.cfg" => loopbacks(alloc, 2001)?,
        "made/4097-ranges.cfg" => ranges(alloc, 4097)?,
        "made/20000-branches-and-open.txt" => branches(alloc, 20_000, "open\n")?,
        "made/20000-branches-and-leaf.txt" => branches(alloc, 20_000, "leaf R1 R2\n")?,
        "made/20000-branches.txt" => branches(alloc, 20_000, "")?,
        _ => return made_ring(alloc, name),
    };
    Ok(Some(text.into_bytes()))
}

/// Those of a file of a ring: its configurations, an order of its routers, or a journal.
fn made_ring(alloc: Global, name: &str) -> Result<Option<Vec<u8>>> {
    let text = match name {
        "made/ring-of-20.cfg" => routers(alloc, &RING_OF_20, 1, 20)?,
        "made/halves-of-20.txt" => halves(alloc, 20)?,
        "made/ring-of-60.cfg" => routers(alloc, &RING_OF_60, 1, 60)?,
        "made/ascending-60.txt" => ascending(alloc, 60)?,
        "made/ring-of-200.cfg" => routers(alloc, &RING_OF_200, 1, 200)?,
        "made/twins-of-200.cfg" => routers(alloc, &TWINS_OF_200, 1, 200)?,
        "made/halves-of-200.txt" => halves(alloc, 200)?,
        "made/waves-of-200.txt" => waves(alloc, 200)?,
        "made/half-done-by-halves.txt" => journal(alloc, 200, Way::Halves, 100)?,
        "made/done-by-halves.txt" => journal(alloc, 200, Way::Halves, 200)?,
        "made/half-done-by-waves.txt" => journal(alloc, 200, Way::Waves, 100)?,
        "made/done-by-waves.txt" => journal(alloc, 200, Way::Waves, 200)?,
        _ => return made_greatest(alloc, name),
    };
    Ok(Some(text.into_bytes()))
}

/// Those of a file of the greatest network, or of one of its routers.
fn made_greatest(alloc: Global, name: &str) -> Result<Option<Vec<u8>>> {
    let text = match name {
        "made/greatest.cfg" => routers(alloc, &GREATEST, 1, 200)?,
        "made/greatest-1.cfg" => quarter(alloc, &GREATEST, 0)?,
        "made/greatest-2.cfg" => quarter(alloc, &GREATEST, 1)?,
        "made/greatest-3.cfg" => quarter(alloc, &GREATEST, 2)?,
        "made/greatest-4.cfg" => quarter(alloc, &GREATEST, 3)?,
        "made/unprepared-1.cfg" => quarter(alloc, &UNPREPARED, 0)?,
        "made/unprepared-2.cfg" => quarter(alloc, &UNPREPARED, 1)?,
        "made/unprepared-3.cfg" => quarter(alloc, &UNPREPARED, 2)?,
        "made/unprepared-4.cfg" => quarter(alloc, &UNPREPARED, 3)?,
        _ => match number_in(name) {
            Some(i) => router(alloc, &RING_OF_200, i)?,
            None => return made_pair(alloc, name),
        },
    };
    Ok(Some(text.into_bytes()))
}

/// Those of a file of a network of OSPF alone, as it is old or as it is new.
fn made_pair(alloc: Global, name: &str) -> Result<Option<Vec<u8>>> {
    match old_or_new(name) {
        Some(ring) => Ok(Some(routers(alloc, &ring, 1, ring.routers)?.into_bytes())),
        None => Ok(None),
    }
}

/// The ring of OSPF alone of a file, None where there is none.
fn old_or_new(name: &str) -> Option<Ring>
    ensures { IfSome result (λ ring. ring.routers < 255) }
{
    match name.split_once('-')? {
        ("made/old", rest) => ring_of(rest, Processes::Ospf),
        ("made/new", rest) => ring_of(rest, Processes::NewOspf),
        _ => None,
    }
}

/// The ring of a file of this name, None where there is none.
fn ring_of(name: &str, processes: Processes) -> Option<Ring>
    ensures { IfSome result (λ ring. ring.routers < 255) }
{
    let (routers, more_loopbacks, ranges, has_twins) = match name {
        "ring-of-20.cfg" => (20, 0, 0, false),
        "ring-of-200.cfg" => (200, 0, 0, false),
        "twins-of-200.cfg" => (200, 0, 0, true),
        "greatest.cfg" => (200, 7, 2296, false),
        _ => return None,
    };
    Some(Ring {
        routers,
        more_loopbacks,
        ranges,
        processes,
        has_twins,
    })
}

/// The number of the router of a name `made/Si.cfg`, from 1 to 200.
fn number_in(name: &str) -> Option<u32>
    ensures { IfSome result (λ i. (1 ≤ i) × (i ≤ 200)) }
{
    let (front, rest) = name.split_once('S')?;
    let (number, end) = rest.split_once('.')?;
    let i = number.parse().ok()?;
    (front == "made/" && end == "cfg" && 1 <= i && i <= 200).then_some(i)
}

/// One line of a comment, of so many bytes that begin one.
fn comment(alloc: Global, mark: &str, length: usize) -> Result<String> {
    Ok(mark.repeat(alloc, length)?)
}

/// A text and behind its last `end` one line of a comment, so many bytes together.
fn filled(alloc: Global, front: &str, length: usize) -> Result<String> {
    let mut text = String::from_str(alloc, front)?;
    let rest = comment(alloc, "!", length.saturating_sub(front.len()))?;
    text.push_str(rest.as_str())?;
    Ok(text)
}

/// A router by itself.
const ALONE: &str = "hostname R1
interface Loopback0
 ip address 10.0.0.1 255.255.255.255
router ospf 1
 network 0.0.0.0 255.255.255.255 area 0
end
";

/// A router with so many up loopbacks and nothing else, at most 65,536.
fn loopbacks(alloc: Global, count: u32) -> Result<String> {
    let mut text = String::from_str(alloc, "hostname R1\n")?;
    for i in 0..count {
        let (high, low) = (i / 256, i % 256);
        let lines = format!(in alloc;
            "interface Loopback{i}\n ip address 10.0.{high}.{low} 255.255.255.255\n"
        )?;
        text.push_str(lines.as_str())?;
    }
    text.push_str("end\n")?;
    Ok(text)
}

/// A router with so many ranges and nothing else, at most 65,536.
fn ranges(alloc: Global, count: u32) -> Result<String> {
    let lines = range_lines(alloc, count)?;
    Ok(format!(in alloc; "hostname R1\nrouter ospf 1\n{lines}end\n")?)
}

/// The lines of so many ranges, at most 65,536.
fn range_lines(alloc: Global, count: u32) -> Result<String> {
    let mut text = String::new(alloc);
    for i in 0..count {
        let (high, low) = (i / 256, i % 256);
        let line = format!(in alloc; " area 1 range 10.20.{high}.{low} 255.255.255.255\n")?;
        text.push_str(line.as_str())?;
    }
    Ok(text)
}

/// Which processes the routers of a ring have.
#[derive(Clone, Copy)]
enum Processes {
    /// OSPF process 1.
    Ospf,
    /// OSPF process 2, which has the metrics of IS-IS as its costs, and installs nothing yet.
    NewOspf,
    /// OSPF process 1, and IS-IS, which installs nothing yet.
    OspfAndIsis,
}

/// A ring of 3 to 254 routers, whose last link is dear for OSPF and whose middle one is dear for IS-IS.
#[derive(Drop)]
struct Ring {
    routers: u32,
    /// How many loopbacks a router has besides the first one, at most 9.
    more_loopbacks: u32,
    /// How many ranges the last router has, at most 65,536.
    ranges: u32,
    processes: Processes,
    /// Whether the first router and the one before the middle link have one address besides, which is cheap for OSPF at the
    /// first one, and for IS-IS at the other.
    has_twins: bool,
}

const RING_OF_20: Ring = Ring {
    routers: 20,
    more_loopbacks: 0,
    ranges: 0,
    processes: Processes::OspfAndIsis,
    has_twins: false,
};

const RING_OF_60: Ring = Ring {
    routers: 60,
    more_loopbacks: 0,
    ranges: 0,
    processes: Processes::OspfAndIsis,
    has_twins: false,
};

const RING_OF_200: Ring = Ring {
    routers: 200,
    more_loopbacks: 0,
    ranges: 0,
    processes: Processes::OspfAndIsis,
    has_twins: false,
};

const TWINS_OF_200: Ring = Ring {
    routers: 200,
    more_loopbacks: 0,
    ranges: 0,
    processes: Processes::OspfAndIsis,
    has_twins: true,
};

/// A network as great as one may be: 200 routers, 2,000 up interfaces, and with 200 links, 1,600 loopbacks and 2,296 ranges
/// 4,096 prefixes.
const GREATEST: Ring = Ring {
    routers: 200,
    more_loopbacks: 7,
    ranges: 2296,
    processes: Processes::OspfAndIsis,
    has_twins: false,
};

/// The same without IS-IS.
const UNPREPARED: Ring = Ring {
    routers: 200,
    more_loopbacks: 7,
    ranges: 2296,
    processes: Processes::Ospf,
    has_twins: false,
};

/// The routers of a ring from the first of these numbers to the last.
fn routers(alloc: Global, ring: &Ring, first: u32, last: u32) -> Result<String>
    requires size { ring.now.routers < 255 }
    requires first { 1 ≤ first }
    requires last { last ≤ ring.now.routers }
{
    let mut text = String::new(alloc);
    for i in first..last + 1 {
        let router = router(alloc, ring, i)?;
        text.push_str(router.as_str())?;
    }
    Ok(text)
}

/// A quarter of the routers of a ring, counted from 0, and one line of a comment behind them, 16 MiB together.
fn quarter(alloc: Global, ring: &Ring, number: u32) -> Result<String>
    requires size { ring.now.routers ≡ 200 }
    requires number { number < 4 }
{
    let text = routers(alloc, ring, 50 * number + 1, 50 * number + 50)?;
    filled(alloc, text.as_str(), FILE_MOST)
}

/// The router of this number of a ring.
fn router(alloc: Global, ring: &Ring, i: u32) -> Result<String>
    requires size { ring.now.routers < 255 }
    requires positive { 1 ≤ i }
    requires router { i ≤ ring.now.routers }
{
    let before = if i == 1 { ring.routers } else { i - 1 };
    let loopbacks = loopbacks_in_ring(alloc, ring, i)?;
    let near = end_of_link(alloc, ring, 0, i, 1)?;
    let far = end_of_link(alloc, ring, 1, before, 2)?;
    let ranges = if i == ring.routers {
        range_lines(alloc, ring.ranges)?
    } else {
        String::new(alloc)
    };
    let (process, last) = match ring.processes {
        Processes::Ospf => (1, String::new(alloc)),
        Processes::NewOspf => (2, String::from_str(alloc, " distance 255\n")?),
        Processes::OspfAndIsis => (1, isis_lines(alloc, i)?),
    };
    Ok(format!(in alloc;
        "hostname S{i:02}\n{loopbacks}{near}{far}router ospf {process}\n network 10.0.0.0 0.255.255.255 area 0\n{ranges}{last}end\n"
    )?)
}

/// The lines of the IS-IS process of a ring's router.
fn isis_lines(alloc: Global, i: u32) -> Result<String> {
    Ok(format!(in alloc;
        "router isis\n net 49.0001.0000.0000.{i:04}.00\n is-type level-2-only\n metric-style wide\n distance 255\n"
    )?)
}

/// The loopbacks of a ring's router.
fn loopbacks_in_ring(alloc: Global, ring: &Ring, i: u32) -> Result<String>
    requires { ring.now.routers < 255 }
{
    let isis = match ring.processes {
        Processes::OspfAndIsis => " ip router isis\n",
        _ => "",
    };
    let mut text = format!(in alloc;
        "interface Loopback0\n ip address 10.0.0.{i} 255.255.255.255\n{isis}"
    )?;
    for j in 1..ring.more_loopbacks.saturating_add(1) {
        let lines = format!(in alloc;
            "interface Loopback{j}\n ip address 10.1{j}.0.{i} 255.255.255.255\n{isis}"
        )?;
        text.push_str(lines.as_str())?;
    }
    if ring.has_twins && i == 1 {
        let twin = twin(alloc, ring, 1, 10_000)?;
        text.push_str(twin.as_str())?;
    }
    if ring.has_twins && i == ring.routers / 2 {
        let twin = twin(alloc, ring, 1000, 10)?;
        text.push_str(twin.as_str())?;
    }
    Ok(text)
}

/// The address of two routers at one of them, with its cost and its metric there.
fn twin(alloc: Global, ring: &Ring, cost: u32, metric: u32) -> Result<String> {
    let running = running_lines(alloc, ring, cost, metric)?;
    Ok(format!(in alloc; "interface Loopback1\n ip address 10.0.1.0 255.255.255.255\n{running}")?)
}

/// The lines of an interface that runs the processes of a ring, with its cost and its metric.
fn running_lines(alloc: Global, ring: &Ring, cost: u32, metric: u32) -> Result<String> {
    Ok(match ring.processes {
        Processes::Ospf => format!(in alloc; " ip ospf cost {cost}\n")?,
        Processes::NewOspf => format!(in alloc; " ip ospf cost {metric}\n")?,
        Processes::OspfAndIsis => format!(in alloc;
            " ip ospf cost {cost}\n ip router isis\n isis metric {metric}\n"
        )?,
    })
}

/// The interface of this number at an end of a link of the ring, which has this address of the link's subnet.
fn end_of_link(alloc: Global, ring: &Ring, number: u32, link: u32, address: u32) -> Result<String> {
    let cost = if link == ring.routers { 1000 } else { 1 };
    let metric = if link == ring.routers / 2 { 10_000 } else { 10 };
    let running = running_lines(alloc, ring, cost, metric)?;
    Ok(format!(in alloc;
        "interface GigabitEthernet0/{number}\n ip address 10.1.{link}.{address} 255.255.255.252\n{running}"
    )?)
}

/// A way through the routers of a ring.
#[derive(Clone, Copy)]
enum Way {
    /// Those before the dear link of IS-IS ascending, then the others descending.
    Halves,
    /// By turns one of those ascending and one of the others descending.
    Waves,
}

/// The router at a place of a way through a ring, places counted from 0.
fn router_at(count: u32, way: Way, place: u32) -> u32
    requires size { count < 255 }
    requires place { place < count }
{
    match way {
        Way::Halves if place < count / 2 => place + 1,
        Way::Halves => count + count / 2 - place,
        Way::Waves if place % 2 == 0 => place / 2 + 1,
        Way::Waves => count - place / 2,
    }
}

/// An order of the routers of a ring of at most 254: those before the dear link of IS-IS ascending, then the others descending.
fn halves(alloc: Global, count: u32) -> Result<String>
    requires { count < 255 }
{
    let mut text = String::from_str(alloc, "order 1\n")?;
    for place in 0..count {
        let router = router_at(count, Way::Halves, place);
        let line = format!(in alloc; "S{router:02}\n")?;
        text.push_str(line.as_str())?;
    }
    Ok(text)
}

/// The wave list of a ring of at most 254 routers, an even number: one ascending and one descending router a wave.
fn waves(alloc: Global, count: u32) -> Result<String>
    requires { count < 255 }
{
    let mut text = String::from_str(alloc, "order 2\n")?;
    for wave in 0..count / 2 {
        let first = router_at(count, Way::Waves, 2 * wave);
        let second = router_at(count, Way::Waves, 2 * wave + 1);
        let line = format!(in alloc; "wave S{first:02} S{second:02}\n")?;
        text.push_str(line.as_str())?;
    }
    Ok(text)
}

/// A journal of a ring of at most 254 routers: both changes of each of the first so many routers of a way.
fn journal(alloc: Global, count: u32, way: Way, done: u32) -> Result<String>
    requires size { count < 255 }
    requires done { done ≤ count }
{
    let mut text = String::from_str(alloc, "journal 1\n")?;
    for place in 0..done {
        let router = router_at(count, way, place);
        let lines = format!(in alloc; "S{router:02} 1\nS{router:02} 2\n")?;
        text.push_str(lines.as_str())?;
    }
    Ok(text)
}

/// The order of the routers of a ring by their names, of at most 99.
fn ascending(alloc: Global, count: u32) -> Result<String>
    requires { count < 100 }
{
    let mut text = String::from_str(alloc, "order 1\n")?;
    for i in 1..count + 1 {
        let line = format!(in alloc; "S{i:02}\n")?;
        text.push_str(line.as_str())?;
    }
    Ok(text)
}

/// A tree of so many branches of the triangle, each below the one before it, and then these lines.
fn branches(alloc: Global, count: usize, last: &str) -> Result<String> {
    let mut text = String::from_str(alloc, "tree 1\n")?;
    let all = "branch 10.0.0.3 R1:O R2:N\n".repeat(alloc, count)?;
    text.push_str(all.as_str())?;
    text.push_str(last)?;
    Ok(text)
}
