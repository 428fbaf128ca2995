ghost use Rattle.std.specs.Prelude.{◌≡◌, ◌<◌, ◌↔◌, ℕ, length, Some, Any, Contains, IfOk, IfNone, IfSome, IsTrue, OnOk, MatchOption};
ghost use Rattle.net_model.specs.Network.{InArea, IsBorderRouter, RunsArea};
ghost use Rattle.net_model.specs.Refusals.{IsNetwork};
ghost use Rattle.net_model.specs.declared.zone.Zone.TheVariants.{Area};
ghost use Rattle.igp_theory.specs.Laws.{IsOspfNeighbor};
ghost use Rattle.route_tables.specs.Entries.{AreJoinedBy};
ghost use Rattle.zone_graph.specs.Segments.{AreZoneSegments};
ghost use Rattle.ospf_routes.specs.steps.Areas.{AreAreas, AreJoinedAreas, HasArea, IsArea, IsAreaAt, IsListener, RunsOther};
ghost use Rattle.ospf_routes.specs.AreaZones.{AreAreaZones, IsAreaOf};
ghost use Rattle.ospf_routes.specs.Lists.{Adds, Exactly};

use crate::OutOfMemory;
use crate::members::{Borders, Members};
use net_model::{Interface, Net, Zone};
use route_tables::push_option;
use std::alloc::Global;
use std::rc::Rc;
use walk_core::Segment;
use zone_graph::{KnownWalks, ZoneWalks, zone_segments};

/// The place of the backbone among the areas, of which it is the first.
pub(crate) const BACKBONE: usize = 0;

/// An area with its least walks, its routers and its border routers.
#[derive(Debug, Drop)]
pub(crate) struct AreaWalks {
    /// The number of the area.
    pub number: u32,
    /// The least walks of the area, which networks may share where it is the same in them.
    pub walks: Rc<ZoneWalks>,
    /// The routers of the area.
    pub members: Members,
    /// The border routers of the area.
    pub borders: Borders,
}

/// The areas of a network, and the segments of all of them.
#[derive(Debug, Drop)]
pub(crate) struct JoinedAreas {
    /// The areas.
    pub areas: Vec<AreaWalks>,
    /// The segments, which join each router and its neighbors.
    pub segments: Vec<Segment>,
}

/// The backbone and every area that a router is in, each with its least walks, its routers and its border routers; and the
/// segments of all. Least walks that are known are taken.
pub(crate) fn all_areas(
    alloc: Global,
    net: &Net,
    known: &KnownWalks,
) -> Result<JoinedAreas, OutOfMemory>
    ensures areas { IfOk result (λ all. AreAreas net.now all.areas.items) }
    ensures segments { IfOk result (λ all. AreJoinedBy (IsOspfNeighbor net.now) all.segments.items) }
{
    let numbers = area_numbers(alloc, net)?;
    areas_of(alloc, net, known, numbers.as_slice())
}

/// The areas of these numbers, with the segments that their least walks go over.
fn areas_of(
    alloc: Global,
    net: &Net,
    known: &KnownWalks,
    numbers: &[u32],
) -> Result<JoinedAreas, OutOfMemory>
    ensures { IfOk result (λ all. AreJoinedAreas net.now numbers.now all.areas.items all.segments.items) }
{
    let mut areas = Vec::new(alloc);
    let mut segments = Vec::new(alloc);
    for number in numbers {
        let mut own = zone_segments(alloc, net, Zone::Area(*number))?;
        areas.push(area_over(alloc, net, known, *number, own.as_slice())?)?;
        segments.append(&mut own)?;
    }
    Ok(JoinedAreas { areas, segments })
}

/// The area of this number, with the least walks over its segments.
fn area_over(
    alloc: Global,
    net: &Net,
    known: &KnownWalks,
    number: u32,
    segments: &[Segment],
) -> Result<AreaWalks, OutOfMemory>
    requires { AreZoneSegments net.now (Area number) segments.now }
    ensures number { IfOk result (λ area. area.number ≡ number) }
    ensures area { IfOk result (IsArea net.now) }
{
    let walks = known.walks_over(alloc, net, segments)?;
    let members = Members::of_area(alloc, net, number)?;
    let borders = Borders::of_area(alloc, net, number, &members)?;
    Ok(AreaWalks {
        number,
        walks,
        members,
        borders,
    })
}

/// The zones of the backbone and of every area that a router is in, each once. It is here for those who keep the least walks
/// of a network for others (`KnownWalks`).
pub fn area_zones(alloc: Global, net: &Net) -> Result<Vec<Zone>, OutOfMemory>
    ensures { IfOk result (λ zones. AreAreaZones net.now zones.items) }
{
    let numbers = area_numbers(alloc, net)?;
    zones_of(alloc, numbers.as_slice())
}

/// The zones of the areas of these numbers.
fn zones_of(alloc: Global, numbers: &[u32]) -> Result<Vec<Zone>, OutOfMemory>
    ensures { IfOk result (λ zones. Exactly (λ zone. Any (λ n. Area n ≡ zone) numbers.now) zones.items) }
{
    let mut zones = Vec::new(alloc);
    for number in numbers {
        zones.push(Zone::Area(*number))?;
    }
    Ok(zones)
}

/// The numbers of the backbone and of every area that a router is in, each once.
fn area_numbers(alloc: Global, net: &Net) -> Result<Vec<u32>, OutOfMemory>
    ensures network { OnOk result (IsNetwork net.now) }
    ensures numbers { IfOk result (λ numbers. Exactly (IsAreaOf net.now) numbers.items) }
{
    let mut numbers = Vec::new(alloc);
    numbers.push(0)?;
    for u in 0..net.routers() {
        add_areas(&mut numbers, net.config(u).interfaces.as_slice())?;
    }
    Ok(numbers)
}

/// Adds the areas of interfaces that are up and run OSPF.
fn add_areas(numbers: &mut Vec<u32>, interfaces: &[Interface]) -> Result<(), OutOfMemory>
    ensures { OnOk result (Adds numbers.old.items numbers.new.items (λ n. Any (RunsArea n) interfaces.now)) }
{
    for interface in interfaces {
        add_area(numbers, area_of(interface))?;
    }
    Ok(())
}

/// Adds an area, unless there is none or it is there.
fn add_area(numbers: &mut Vec<u32>, area: Option<u32>) -> Result<(), OutOfMemory>
    ensures { OnOk result (Adds numbers.old.items numbers.new.items (λ n. area ≡ Some n)) }
{
    match area {
        Some(number) if numbers.contains(&number) => Ok(()),
        other => push_option(numbers, other),
    }
}

/// The area of an interface that is up and runs OSPF.
fn area_of(interface: &Interface) -> Option<u32>
    ensures { (n : ℕ) → (result ≡ Some n) ↔ RunsArea n interface.now }
{
    if interface.up { interface.area } else { None }
}

/// The area of the first interface that is up and runs OSPF.
fn first_area(interfaces: &[Interface]) -> Option<u32>
    ensures { MatchOption result ((n : ℕ) → Any (RunsArea n) interfaces.now → ⊥) (λ n. Any (RunsArea n) interfaces.now) }
{
    for interface in interfaces {
        if let Some(number) = area_of(interface) {
            return Some(number);
        }
    }
    None
}

/// Whether one of the interfaces is up and runs OSPF in the area.
pub(crate) fn has_area(interfaces: &[Interface], number: u32) -> bool
    ensures { IsTrue result ↔ Any (RunsArea number) interfaces.now }
{
    interfaces.iter().any(|i| i.up && i.area == Some(number))
}

/// Whether the interface is up and runs OSPF in another area.
fn runs_other(interface: &Interface, number: u32) -> bool
    ensures { IsTrue result ↔ RunsOther number interface.now }
{
    match area_of(interface) {
        Some(area) => area != number,
        None => false,
    }
}

/// Whether one of the interfaces is up and runs OSPF in another area.
fn some_runs_other(interfaces: &[Interface], number: u32) -> bool
    ensures { IsTrue result ↔ Any (RunsOther number) interfaces.now }
{
    interfaces.iter().any(|i| runs_other(i, number))
}

/// Whether the router is a border router (RFC 2328, section 3.3).
pub(crate) fn is_border(net: &Net, u: u32) -> bool
    requires { u < length net.now }
    ensures { IsTrue result ↔ IsBorderRouter net.now u }
{
    let interfaces = net.config(u).interfaces.as_slice();
    match first_area(interfaces) {
        Some(number) => some_runs_other(interfaces, number),
        None => false,
    }
}

/// The area whose announcements the router listens to: the backbone at a border router, else its one
/// area (RFC 2328, section 16.2).
pub(crate) fn listens_to(net: &Net, u: u32) -> Option<u32>
    requires { u < length net.now }
    ensures { IsListener net.now u result }
{
    if is_border(net, u) {
        return Some(0);
    }
    first_area(net.config(u).interfaces.as_slice())
}

/// The place of the area of this number among all.
pub(crate) fn place_of(areas: &[AreaWalks], number: u32) -> Option<usize>
    ensures none { IfNone result (HasArea areas.now number → ⊥) }
    ensures some { IfSome result (IsAreaAt areas.now number) }
{
    for (zone, area) in areas.iter().enumerate() {
        if area.number == number {
            return Some(zone);
        }
    }
    None
}
