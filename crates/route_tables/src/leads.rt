ghost use Rattle.std.specs.Prelude.{◌≡◌, ◌+◌, ◌^◌, ◌<◌, [], IfOk, IfSome, IsTrue, MatchOption, OnOk, replicate, slice_set};
ghost use Rattle.walk_core.specs.Stretches.{reach_along};
ghost use Rattle.route_tables.specs.steps.Leads.{AreLeads, AreLeadsTo, AreLevelMakers, AreMissed, CostTheSame, IsFarAt, IsLead, IsLeadAt, IsNumberOfBest, IsNumberToBest};
ghost use Rattle.route_tables.specs.steps.Leads.{IsTold, IsToldBeyond, far_lead, no_lead};
ghost use Rattle.route_tables.specs.steps.Sharing.{AreOverOne, KeepsMore};

use crate::OutOfMemory;
use crate::lane::{Behind, Decision};
use crate::pool::Pool;
use crate::sharing::{TwoMakers, number_over};
use route_core::Number;
use std::alloc::Global;
use walk_core::{Extent, LeastWalks, Offer, OnlyHop, WalkStretch};

/// How a router reaches a vertex by its least walks of a zone.
#[derive(Clone, Copy, Debug)]
pub(crate) struct Lead {
    /// How far it is where there is a number, and the greatest number where it isn't reached.
    distance: u64,
    /// The number of the entry towards it. There is none towards what isn't reached, nor towards the router itself, to which
    /// there is a lead to nothing.
    number: Number,
}

/// The least walks of a router, with the vertices that they lead to, one after another.
#[derive(Debug, Drop)]
struct Walked<'a> {
    walks: &'a LeastWalks,
    stretch: WalkStretch<'a>,
    /// Below this hops are taken.
    count: u32,
}

/// The leads of a router to the vertices below `count`, and none where the walks aren't known.
pub(crate) fn leads_of(
    alloc: Global,
    walks: Option<&LeastWalks>,
    router: u32,
    count: u32,
    pool: &mut Pool,
) -> Result<Vec<Lead>, OutOfMemory>
    requires { AreOverOne count pool.old.entries.items }
    ensures kept { OnOk result (KeepsMore pool.old pool.new) }
    ensures leads { IfOk result (λ leads. MatchOption walks.entry (leads.items ≡ [])
        (λ walks. AreLeads walks.now router count pool.new.entries.items leads.items)) }
{
    match walks {
        Some(walks) => {
            let mut all = leads_over(alloc, walks, count, pool)?;
            leave_out(&mut all, router);
            Ok(all)
        }
        None => Ok(Vec::new(alloc)),
    }
}

/// The leads to the vertices below `count` by these walks.
#[inline(never)]
fn leads_over(
    alloc: Global,
    walks: &LeastWalks,
    count: u32,
    pool: &mut Pool,
) -> Result<Vec<Lead>, OutOfMemory>
    requires { AreOverOne count pool.old.entries.items }
    ensures kept { OnOk result (KeepsMore pool.old pool.new) }
    ensures leads { IfOk result (λ leads. AreLeadsTo walks.now count pool.new.entries.items leads.items) }
{
    match walks.extent() {
        Extent::Alone(root) => leads_alone(alloc, root, count),
        Extent::Along(stretch) => {
            let walked = Walked {
                walks,
                stretch,
                count,
            };
            leads_along(alloc, &walked, pool)
        }
    }
}

/// The leads to the vertices below `count` from a root that reaches itself alone.
fn leads_alone(alloc: Global, root: u32, count: u32) -> Result<Vec<Lead>, OutOfMemory>
    ensures { IfOk result (λ leads. leads.items ≡ slice_set (replicate count far_lead) root no_lead) }
{
    let mut all = vec![in alloc; far_lead(); count as usize]?;
    leave_out(&mut all, root);
    Ok(all)
}

/// The leads to the vertices below the count, in time of those of the stretch.
fn leads_along(
    alloc: Global,
    walked: &Walked<'_>,
    pool: &mut Pool,
) -> Result<Vec<Lead>, OutOfMemory>
    requires along { reach_along walked.now.stretch ≡ walked.now.walks.now }
    requires single { AreOverOne walked.now.count pool.old.entries.items }
    ensures kept { OnOk result (KeepsMore pool.old pool.new) }
    ensures leads { IfOk result (λ leads. AreLeadsTo walked.now.walks.now walked.now.count pool.new.entries.items leads.items) }
{
    let mut all = vec![in alloc; far_lead(); walked.count as usize]?;
    let first = walked.stretch.first() as usize;
    let steps = walked
        .stretch
        .len()
        .min((walked.count as usize).saturating_sub(first));
    for step in 0..steps {
        let lead = lead_on(alloc, walked, step, pool)?;
        all[first + step] = lead;
    }
    Ok(all)
}

/// The lead to the vertex that stands so many behind the first of the stretch, with hops below the count.
#[inline(always)]
fn lead_on(
    alloc: Global,
    walked: &Walked<'_>,
    step: usize,
    pool: &mut Pool,
) -> Result<Lead, OutOfMemory>
    requires along { reach_along walked.now.stretch ≡ walked.now.walks.now }
    requires fits { walked.now.stretch.first + step < 2 ^ 32 }
    requires single { AreOverOne walked.now.count pool.old.entries.items }
    ensures kept { OnOk result (KeepsMore pool.old pool.new) }
    ensures lead { IfOk result (IsLead walked.now.walks.now walked.now.count pool.new.entries.items
        (walked.now.stretch.first + step)) }
{
    let Some(distance) = walked.stretch.distance(step) else {
        return Ok(far_lead());
    };
    let number = match walked.stretch.only_hop(step) {
        OnlyHop::Nothing => return Ok(no_lead()),
        OnlyHop::One(hop) if hop < walked.count => Number::of(hop)?,
        _ => {
            let at = walked.stretch.first() + step as u32;
            Number::of(number_over(alloc, walked.walks, at, walked.count, pool)?)?
        }
    };
    Ok(Lead { distance, number })
}

/// Puts a lead to nothing in place of that to a vertex, if there is one.
fn leave_out(leads: &mut Vec<Lead>, at: u32)
    ensures { leads.new.items ≡ slice_set leads.old.items at no_lead }
{
    if (at as usize) < leads.len() {
        leads[at as usize] = no_lead();
    }
}

/// A lead to what isn't reached.
#[inline(always)]
fn far_lead() -> Lead
    ensures { result ≡ far_lead }
{
    Lead {
        distance: u64::MAX,
        number: Number::none(),
    }
}

/// A lead to nothing.
#[inline(always)]
fn no_lead() -> Lead
    ensures { result ≡ no_lead }
{
    Lead {
        distance: 0,
        number: Number::none(),
    }
}

/// The number of a router's entry, or that it has none, by what decides its route, where the leads tell it.
#[inline(always)]
pub(crate) fn told(leads: &[Lead], router: u32, decision: &Decision) -> Option<Number>
    ensures { IfSome result (IsTold leads.now router decision.now) }
{
    match decision {
        Decision::Nothing => Some(Number::none()),
        Decision::NothingBut(one, other) if *one != router && *other != router => {
            Some(Number::none())
        }
        Decision::One(at) => {
            let lead = lead_at(leads, *at)?;
            Some(lead.number)
        }
        Decision::Two(one, other) => number_to_best(leads, *one, *other),
        _ => None,
    }
}

/// The number of the entry towards the better of two offers, and where they cost the same that of the entry towards each.
#[inline(always)]
fn number_to_best(leads: &[Lead], one: Offer, other: Offer) -> Option<Number>
    ensures { IfSome result (IsNumberToBest leads.now one other) }
{
    let first = lead_at(leads, one.at)?;
    let second = lead_at(leads, other.at)?;
    number_of_best(first, one.asks, second, other.asks)
}

/// The number of the lead to what costs less, where both have one, and of both leads where they cost the same.
#[inline(always)]
fn number_of_best(first: Lead, one_asks: u64, second: Lead, other_asks: u64) -> Option<Number>
    ensures { IfSome result (IsNumberOfBest first one_asks second other_asks) }
{
    let one = first.distance.checked_add(one_asks)?;
    let other = second.distance.checked_add(other_asks)?;
    if one < other {
        return Some(first.number);
    }
    if other < one || first.number == second.number {
        return Some(second.number);
    }
    None
}

/// The vertices of two offers that decide, where both are reached and cost the same.
#[inline(never)]
pub(crate) fn level_makers(leads: &[Lead], decision: &Decision) -> Option<TwoMakers>
    ensures { IfSome result (AreLevelMakers leads.now decision.now) }
{
    match *decision {
        Decision::Two(one, other) if cost_the_same(leads, one, other) => Some(TwoMakers {
            one: one.at,
            other: other.at,
        }),
        _ => None,
    }
}

/// Whether two offers have leads with numbers, and cost the same.
fn cost_the_same(leads: &[Lead], one: Offer, other: Offer) -> bool
    ensures { IsTrue result → CostTheSame leads.now one other }
{
    match (lead_at(leads, one.at), lead_at(leads, other.at)) {
        (Some(first), Some(second)) => {
            are_level(first.distance, one.asks, second.distance, other.asks)
        }
        _ => false,
    }
}

/// Whether two sums are there and the same.
fn are_level(first: u64, one_asks: u64, second: u64, other_asks: u64) -> bool
    ensures { IsTrue result → (first + one_asks ≡ second + other_asks) }
{
    match (first.checked_add(one_asks), second.checked_add(other_asks)) {
        (Some(one), Some(other)) => one == other,
        _ => false,
    }
}

/// The same by what decides behind: where the first offers are missed, what the leads over the zone behind tell.
#[inline(always)]
pub(crate) fn told_behind(
    first: &[Lead],
    behind: &[Lead],
    router: u32,
    decisions: &Behind,
) -> Option<Number>
    ensures { IfSome result (IsToldBeyond first.now behind.now router decisions.now) }
{
    if are_missed(first, &decisions.first) {
        told(behind, router, &decisions.second)
    } else {
        None
    }
}

/// Whether the router of the leads makes and reaches none of the offers of a decision.
#[inline(always)]
fn are_missed(leads: &[Lead], decision: &Decision) -> bool
    ensures { IsTrue result → AreMissed leads.now decision.now }
{
    match decision {
        Decision::Nothing => true,
        Decision::One(at) => is_far_at(leads, *at),
        Decision::Two(one, other) => is_far_at(leads, one.at) && is_far_at(leads, other.at),
        Decision::NothingBut(_, _) | Decision::Unknown => false,
    }
}

/// Whether a vertex isn't reached.
#[inline(always)]
fn is_far_at(leads: &[Lead], at: u32) -> bool
    ensures { IsTrue result → IsFarAt leads.now at }
{
    match leads.get(at as usize).copied() {
        Some(lead) => lead.distance == u64::MAX && lead.number == Number::none(),
        None => false,
    }
}

/// The lead to a vertex, where it has a number.
#[inline(always)]
fn lead_at(leads: &[Lead], at: u32) -> Option<Lead>
    ensures { IfSome result (IsLeadAt leads.now at) }
{
    let lead = leads.get(at as usize).copied()?;
    let _number = lead.number.get()?;
    Some(lead)
}
