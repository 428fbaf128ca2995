ghost use Rattle.std.specs.Prelude.{◌≡◌, ◌<◌, ◌↔◌, ℕ, length, Some, All, Any, Contains, IfOk, IsTrue, OnOk, MatchOption};
ghost use Rattle.net_model.specs.Network.{IsBorderRouter, Network};
ghost use Rattle.igp_theory.specs.Ospf.{IsActive, IsComponent};
ghost use Rattle.ospf_routes.specs.steps.Destinations.{AreOspfDestinations, IsDestinationIn};
ghost use Rattle.ospf_routes.specs.Lists.{Adds, Exactly};
ghost use Rattle.ospf_routes.specs.steps.Ranges.{AreActiveRanges, AreRangesAround, AreRangesBelow, HasComponentCost, IsActiveAt};
ghost use Rattle.ospf_routes.specs.steps.Ranges.{IsComponentOfSome, IsCoveredAt, IsGreatestOf, IsLeastOf};
ghost use Rattle.ospf_routes.specs.steps.Ranges.{HoldRanges, IsLonger, IsOuterRange, IsPicked};
ghost use Rattle.std.specs.List.Sorted.{IsNonDecreasingBy};
ghost use Rattle.net_addr.specs.Addresses.{IsBlock};
ghost use Rattle.net_model.specs.declared.area.Range.{Range as RangeValue};

use crate::OutOfMemory;
use crate::domain::Domain;
use crate::intra_area::{Destination, part_cost, part_of};
use crate::ordered::{HasPrefix, between, sort_by_base, under};
use net_addr::Prefix;
use net_model::Range;
use route_tables::push_option;
use std::alloc::Global;
use std::marker::Model;

/// An active range of a border router, and what it costs.
#[derive(Clone, Copy, Debug)]
pub(crate) struct ActiveRange {
    /// The range.
    pub range: Range,
    /// What it costs.
    pub cost: u64,
}

/// A range of a router, and some of its ranges, among which are all that it covers.
#[derive(Clone, Copy)]
struct OuterRange<'a> {
    range: &'a Range,
    inner: &'a [Range],
}

impl HasPrefix for Range {
    ghost prefix = { λ x. x.dest };

    fn prefix(&self) -> Prefix
        ensures { result ≡ self.now.dest }
    {
        self.dest
    }
}

impl HasPrefix for ActiveRange {
    ghost prefix = { λ x. x.range.dest };

    fn prefix(&self) -> Prefix
        ensures { result ≡ self.now.range.dest }
    {
        self.range.dest
    }
}

/// The active ranges of a router, in the order of the addresses that they begin with.
#[derive(Debug, Drop)]
pub(crate) struct ActiveRanges {
    all: Vec<ActiveRange>,
}

impl Model for ActiveRanges {
    ghost use Rattle.std.specs.Prelude.{List};
    ghost use Rattle.std.specs.List.Sorted.{IsNonDecreasingBy};
    ghost use Rattle.ospf_routes.specs.declared.ranges.ActiveRange.{ActiveRange};

    ghost Value = { List ActiveRange };

    ghost view = { λ x. x.all.items };

    ghost invariant = { λ x. IsNonDecreasingBy (λ (a : ActiveRange). a.range.dest.base) x.all.items };
}

impl ActiveRanges {
    /// The active ranges of router `b`, none where it isn't a border router.
    fn of_router(
        alloc: Global,
        domain: &Domain<'_>,
        destinations: &[Destination],
        b: u32,
    ) -> Result<ActiveRanges, OutOfMemory>
        requires router { b < length domain.now.net }
        requires destinations { AreOspfDestinations domain.now destinations.now }
        ensures { IfOk result (AreActiveRanges domain.now.net b) }
    {
        if domain.is_border(b) {
            border_ranges(alloc, domain, destinations, b)
        } else {
            Ok(ActiveRanges {
                all: Vec::new(alloc),
            })
        }
    }

    /// The ranges as a slice.
    pub fn as_slice(&self) -> &[ActiveRange]
        ensures { result.now ≡ self.now }
    {
        self.all.as_slice()
    }

    /// Those of a prefix, and others that begin with its address. It takes time of the logarithm of all of them.
    pub fn around(&self, dest: Prefix) -> &[ActiveRange]
        ensures { AreRangesAround self.now dest result.now }
    {
        between(self.all.as_slice(), dest.base(), dest.base())
    }

    /// Whether the prefix is that of an active range.
    pub fn contains(&self, dest: Prefix) -> bool
        ensures { IsTrue result ↔ Any (λ a. a.range.dest ≡ dest) self.now }
    {
        is_among(self.around(dest), dest)
    }
}

/// Whether the prefix is that of one of these active ranges.
fn is_among(ranges: &[ActiveRange], dest: Prefix) -> bool
    ensures { IsTrue result ↔ Any (λ a. a.range.dest ≡ dest) ranges.now }
{
    ranges.iter().any(|a| a.range.dest == dest)
}

/// The active ranges of every router.
pub(crate) fn all_ranges(
    alloc: Global,
    domain: &Domain<'_>,
    destinations: &[Destination],
) -> Result<Vec<ActiveRanges>, OutOfMemory>
    requires { AreOspfDestinations domain.now destinations.now }
    ensures { IfOk result (λ ranges. AreRangesBelow domain.now.net (length domain.now.net) ranges.items) }
{
    let mut ranges = Vec::new(alloc);
    for b in 0..domain.routers() {
        ranges.push(ActiveRanges::of_router(alloc, domain, destinations, b)?)?;
    }
    Ok(ranges)
}

/// The prefixes of active ranges, in the order of the addresses that they begin with.
#[derive(Debug, Drop)]
pub(crate) struct RangePrefixes {
    all: Vec<Prefix>,
}

impl Model for RangePrefixes {
    ghost use Rattle.std.specs.Prelude.{List};
    ghost use Rattle.std.specs.List.Sorted.{IsNonDecreasingBy};
    ghost use Rattle.net_addr.specs.Addresses.{Block};

    ghost Value = { List Block };

    ghost view = { λ x. x.all.items };

    ghost invariant = { λ x. IsNonDecreasingBy (λ (p : Block). p.base) x.all.items };
}

impl RangePrefixes {
    /// The prefixes of all these active ranges.
    pub fn of_ranges(alloc: Global, ranges: &[ActiveRanges]) -> Result<RangePrefixes, OutOfMemory>
        ensures { IfOk result (λ prefixes. (net : Network) → AreRangesBelow net (length net) ranges.now → HoldRanges net prefixes) }
    {
        let mut all = range_prefixes(alloc, ranges)?;
        sort_by_base(&mut all);
        Ok(RangePrefixes { all })
    }

    /// Whether there are none.
    pub fn is_empty(&self) -> bool
        ensures { IsTrue result ↔ (length self.now ≡ 0) }
    {
        self.all.is_empty()
    }

    /// Whether the prefix is one of them. It takes time of the logarithm of all of them.
    pub fn has(&self, dest: Prefix) -> bool
        ensures { IsTrue result ↔ Contains self.now dest }
    {
        is_in(between(self.all.as_slice(), dest.base(), dest.base()), dest)
    }
}

/// Whether the prefix is one of these.
fn is_in(prefixes: &[Prefix], dest: Prefix) -> bool
    ensures { IsTrue result ↔ Contains prefixes.now dest }
{
    prefixes.iter().any(|prefix| *prefix == dest)
}

/// The prefixes of all active ranges.
fn range_prefixes(alloc: Global, ranges: &[ActiveRanges]) -> Result<Vec<Prefix>, OutOfMemory>
    ensures { IfOk result (λ prefixes. (net : Network) → AreRangesBelow net (length net) ranges.now → HoldRanges net prefixes.items) }
{
    let mut prefixes = Vec::new(alloc);
    for actives in ranges {
        push_prefixes(&mut prefixes, actives.as_slice())?;
    }
    Ok(prefixes)
}

/// Adds the prefix of each of these active ranges.
fn push_prefixes(prefixes: &mut Vec<Prefix>, actives: &[ActiveRange]) -> Result<(), OutOfMemory>
    ensures { OnOk result (Adds prefixes.old.items prefixes.new.items (λ p. Any (λ a. a.range.dest ≡ p) actives.now)) }
{
    for active in actives {
        prefixes.push(active.range.dest)?;
    }
    Ok(())
}

/// The active ranges of a border router.
fn border_ranges(
    alloc: Global,
    domain: &Domain<'_>,
    destinations: &[Destination],
    b: u32,
) -> Result<ActiveRanges, OutOfMemory>
    requires router { b < length domain.now.net }
    requires border { IsBorderRouter domain.now.net b }
    requires destinations { AreOspfDestinations domain.now destinations.now }
    ensures { IfOk result (AreActiveRanges domain.now.net b) }
{
    let ranges = domain.config(b).ranges.as_slice();
    let sorted = sorted_ranges(alloc, ranges)?;
    let mut all = Vec::new(alloc);
    for range in ranges {
        let outer = OuterRange {
            range,
            inner: under(sorted.as_slice(), range.dest),
        };
        push_option(
            &mut all,
            active_range(alloc, domain, destinations, b, outer)?,
        )?;
    }
    sort_by_base(&mut all);
    Ok(ActiveRanges { all })
}

/// Ranges in the order of the addresses that they begin with.
fn sorted_ranges(alloc: Global, ranges: &[Range]) -> Result<Vec<Range>, OutOfMemory>
    ensures kept { IfOk result (λ sorted. (r : RangeValue) → Contains sorted.items r ↔ Contains ranges.now r) }
    ensures sorted { IfOk result (λ sorted. IsNonDecreasingBy (λ r. r.dest.base) sorted.items) }
{
    let mut sorted = Vec::from_slice(alloc, ranges)?;
    sort_by_base(&mut sorted);
    Ok(sorted)
}

/// The range with its cost, where it is active.
fn active_range(
    alloc: Global,
    domain: &Domain<'_>,
    destinations: &[Destination],
    b: u32,
    outer: OuterRange<'_>,
) -> Result<Option<ActiveRange>, OutOfMemory>
    requires router { b < length domain.now.net }
    requires outer { IsOuterRange domain.now.net b outer }
    requires destinations { AreOspfDestinations domain.now destinations.now }
    ensures { IfOk result (λ found. MatchOption found
        (IsActive domain.now.net b outer.entry.range.now → ⊥) (IsActiveAt domain.now.net b outer.entry.range.now)) }
{
    let costs = component_costs(alloc, domain, destinations, b, outer)?;
    match picked(*outer.range, domain.config(b).rfc1583, costs.as_slice()) {
        Some(cost) => Ok(Some(ActiveRange {
            range: *outer.range,
            cost,
        })),
        None => Ok(None),
    }
}

/// What a range costs over these costs of its components: what its line states, else the least of
/// them, and without RFC 1583 compatibility the greatest.
fn picked(range: Range, compatible: bool, costs: &[u64]) -> Option<u64>
    ensures { MatchOption result (length costs.now ≡ 0) (IsPicked range compatible costs.now) }
{
    if costs.is_empty() {
        return None;
    }
    match range.cost {
        Some(cost) => Some(u64::from(cost)),
        None => {
            if compatible {
                least(costs)
            } else {
                greatest(costs)
            }
        }
    }
}

/// The least of some costs.
fn least(costs: &[u64]) -> Option<u64>
    ensures { MatchOption result (length costs.now ≡ 0) (IsLeastOf costs.now) }
{
    costs.iter().copied().min()
}

/// The greatest of some costs.
fn greatest(costs: &[u64]) -> Option<u64>
    ensures { MatchOption result (length costs.now ≡ 0) (IsGreatestOf costs.now) }
{
    costs.iter().copied().max()
}

/// The costs of the range's components. Only destinations that begin with an address of the range are looked at.
fn component_costs(
    alloc: Global,
    domain: &Domain<'_>,
    destinations: &[Destination],
    b: u32,
    outer: OuterRange<'_>,
) -> Result<Vec<u64>, OutOfMemory>
    requires router { b < length domain.now.net }
    requires outer { IsOuterRange domain.now.net b outer }
    requires destinations { AreOspfDestinations domain.now destinations.now }
    ensures { IfOk result (λ costs. Exactly (HasComponentCost domain.now.net b outer.entry.range.now) costs.items) }
{
    let near = under(destinations, outer.range.dest);
    costs_among(alloc, domain, near, b, outer)
}

/// What those of some destinations cost that are components of the range.
fn costs_among(
    alloc: Global,
    domain: &Domain<'_>,
    near: &[Destination],
    b: u32,
    outer: OuterRange<'_>,
) -> Result<Vec<u64>, OutOfMemory>
    requires router { b < length domain.now.net }
    requires outer { IsOuterRange domain.now.net b outer }
    requires near { All (IsDestinationIn domain.now) near.now }
    ensures { IfOk result (λ costs. Exactly (λ c. Any (λ d. IsComponent domain.now.net b outer.entry.range.now d.dest c) near.now) costs.items) }
{
    let mut costs = Vec::new(alloc);
    for destination in near {
        let cost = component_cost(domain, destination, b, outer);
        push_option(&mut costs, cost)?;
    }
    Ok(costs)
}

/// What the prefix costs as a component of the range.
fn component_cost(
    domain: &Domain<'_>,
    destination: &Destination,
    b: u32,
    outer: OuterRange<'_>,
) -> Option<u64>
    requires router { b < length domain.now.net }
    requires outer { IsOuterRange domain.now.net b outer }
    requires destination { IsDestinationIn domain.now destination.now }
    ensures { (cost : ℕ) → (result ≡ Some cost) ↔ IsComponent domain.now.net b outer.entry.range.now destination.now.dest cost }
{
    let cost = covered_cost(domain, destination, b, *outer.range)?;
    if has_longer(outer, destination.dest) {
        return None;
    }
    Some(cost)
}

/// What the prefix costs in the area of a range that covers it.
fn covered_cost(domain: &Domain<'_>, destination: &Destination, b: u32, range: Range) -> Option<u64>
    requires router { b < length domain.now.net }
    requires destination { IsDestinationIn domain.now destination.now }
    ensures { (cost : ℕ) → (result ≡ Some cost) ↔ IsCoveredAt domain.now.net b range destination.now.dest cost }
{
    if !range.dest.covers(destination.dest) {
        return None;
    }
    let part = part_of(destination.parts.as_slice(), range.area)?;
    part_cost(domain, part, b)
}

/// Whether a longer one of the ranges that a range covers, of the same area, covers the prefix.
fn has_longer(outer: OuterRange<'_>, dest: Prefix) -> bool
    ensures has { IsTrue result ↔ Any (IsLonger outer.entry.range.now dest) outer.entry.inner.now }
    ensures block { IsBlock dest }
{
    outer.range.dest.len() < dest.len()
        && outer
            .inner
            .iter()
            .any(|other| is_longer(*other, *outer.range, dest))
}

/// Whether the other range is longer, of the same area, and covers the prefix.
fn is_longer(other: Range, range: Range, dest: Prefix) -> bool
    ensures { IsTrue result ↔ IsLonger range dest other }
{
    other.area == range.area && other.dest.covers(dest) && range.dest.len() < other.dest.len()
}

/// Whether the prefix is a component of a range of the border router, of which these are the active ranges: one of them covers
/// it, in whose area it has an intra-area cost, and the longest such one has it as a component.
pub(crate) fn is_component(
    domain: &Domain<'_>,
    actives: &[ActiveRange],
    destination: &Destination,
    b: u32,
) -> bool
    requires router { b < length domain.now.net }
    requires ranges { AreActiveRanges domain.now.net b actives.now }
    requires destination { IsDestinationIn domain.now destination.now }
    ensures { IsTrue result ↔ IsComponentOfSome domain.now.net b destination.now.dest }
{
    for active in actives {
        if covered_cost(domain, destination, b, active.range).is_some() {
            return true;
        }
    }
    false
}
