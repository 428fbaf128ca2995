ghost use Rattle.std.specs.Prelude.{◌≡◌, ◌+◌, ◌<◌, ◌++◌, ◌∷◌, [], All, length, IfOk, IfSome};
ghost use Rattle.route_tables.specs.Lanes.{DecidesBehind, DecidesFor};
ghost use Rattle.route_tables.specs.Protocols.{AreAlikeInLane};
ghost use Rattle.route_tables.specs.steps.Kinds.{AreDecided, AreDecidedBehind, AreKinds, AreLanesBelow, IsLane, IsToldBehind};

use crate::OutOfMemory;
use crate::lane::{Behind, Decision};
use crate::protocol::Protocol;
use std::alloc::Global;
use std::rc::Rc;

/// The kinds of the prefixes in a lane, and what decides for each: its routers have the same entries for all prefixes of one
/// kind.
#[derive(Debug, Drop)]
pub(crate) struct LaneKinds {
    /// The kind of each prefix, which the tables of the lane share.
    pub(crate) kinds: Rc<Vec<u32>>,
    /// The place of the first prefix of each kind.
    pub(crate) firsts: Vec<u32>,
    /// What decides for each kind.
    pub(crate) decisions: Vec<Decision>,
    /// What decides for each behind that.
    pub(crate) behind: LaneBehind,
}

/// What decides in a lane where first offers aren't reached.
#[derive(Debug, Drop)]
pub(crate) struct LaneBehind {
    /// The zone over which it decides, where offers decide for any kind.
    pub(crate) zone: Option<usize>,
    /// What decides for each kind, and none of them where no zone is known.
    pub(crate) decisions: Vec<Behind>,
}

/// The kinds of the prefixes in each lane.
pub(crate) fn all_kinds<P: Protocol>(
    alloc: Global,
    protocol: &P,
) -> Result<Vec<LaneKinds>, OutOfMemory>
    ensures { IfOk result (λ all. AreLanesBelow (P.routes protocol.now) (P.candidates protocol.now)
        (P.lanes protocol.now) all.items) }
{
    let mut all = Vec::with_capacity(alloc, protocol.lanes())?;
    for lane in 0..protocol.lanes() {
        all.push(kinds_in(alloc, protocol, lane)?)?;
    }
    Ok(all)
}

/// The kinds of the prefixes in a lane.
fn kinds_in<P: Protocol>(alloc: Global, protocol: &P, lane: usize) -> Result<LaneKinds, OutOfMemory>
    requires { lane < P.lanes protocol.now }
    ensures { IfOk result (IsLane (P.routes protocol.now) lane (P.candidates protocol.now)) }
{
    let Ok(count) = u32::try_from(protocol.candidates()) else {
        return Err(OutOfMemory);
    };
    let mut kinds = Vec::with_capacity(alloc, count as usize)?;
    let mut firsts = Vec::new(alloc);
    for place in 0..count {
        let kind = kind_at(protocol, lane, place, kinds.as_slice(), &mut firsts)?;
        kinds.push(kind)?;
    }
    let kinds = Rc::new(alloc, kinds)?;
    let decisions = decisions_at(alloc, protocol, lane, firsts.as_slice())?;
    let behind = lane_behind(alloc, protocol, lane, firsts.as_slice())?;
    Ok(LaneKinds {
        kinds,
        firsts,
        decisions,
        behind,
    })
}

/// What decides in a lane for the prefixes at these places where first offers aren't reached.
fn lane_behind<P: Protocol>(
    alloc: Global,
    protocol: &P,
    lane: usize,
    places: &[u32],
) -> Result<LaneBehind, OutOfMemory>
    requires lane { lane < P.lanes protocol.now }
    requires places { All (λ place. place < length (P.candidates protocol.now)) places.now }
    ensures { IfOk result (IsToldBehind (P.routes protocol.now) lane (P.candidates protocol.now) places.now) }
{
    match protocol.zone_behind(lane) {
        Some(zone) => {
            let decisions = behind_at(alloc, protocol, lane, zone, places)?;
            let zone = zone_with_offers(zone, decisions.as_slice());
            Ok(LaneBehind { zone, decisions })
        }
        None => Ok(LaneBehind {
            zone: None,
            decisions: Vec::new(alloc),
        }),
    }
}

/// The zone, where offers decide there.
fn zone_with_offers(zone: usize, decisions: &[Behind]) -> Option<usize>
    ensures { IfSome result (λ known. known ≡ zone) }
{
    for behind in decisions {
        if has_offers(behind.second) {
            return Some(zone);
        }
    }
    None
}

/// Whether offers decide.
fn has_offers(decision: Decision) -> bool {
    match decision {
        Decision::One(_) | Decision::Two(_, _) => true,
        Decision::Nothing | Decision::NothingBut(_, _) | Decision::Unknown => false,
    }
}

/// What decides in a lane over a zone for the prefixes at these places where first offers aren't reached.
fn behind_at<P: Protocol>(
    alloc: Global,
    protocol: &P,
    lane: usize,
    zone: usize,
    places: &[u32],
) -> Result<Vec<Behind>, OutOfMemory>
    requires lane { lane < P.lanes protocol.now }
    requires zone { zone < (P.routes protocol.now).zones }
    requires places { All (λ place. place < length (P.candidates protocol.now)) places.now }
    ensures { IfOk result (λ decisions. AreDecidedBehind (DecidesBehind (P.routes protocol.now) lane zone)
        (P.candidates protocol.now) places.now (length places.now) decisions.items) }
{
    let mut decisions = Vec::with_capacity(alloc, places.len())?;
    for place in places {
        decisions.push(protocol.behind(lane, *place as usize, zone))?;
    }
    Ok(decisions)
}

/// What decides in a lane for the prefixes at these places.
fn decisions_at<P: Protocol>(
    alloc: Global,
    protocol: &P,
    lane: usize,
    places: &[u32],
) -> Result<Vec<Decision>, OutOfMemory>
    requires lane { lane < P.lanes protocol.now }
    requires places { All (λ place. place < length (P.candidates protocol.now)) places.now }
    ensures { IfOk result (λ decisions. AreDecided (DecidesFor (P.routes protocol.now) lane)
        (P.candidates protocol.now) places.now (length places.now) decisions.items) }
{
    let mut decisions = Vec::with_capacity(alloc, places.len())?;
    for place in places {
        decisions.push(protocol.decision(lane, *place as usize))?;
    }
    Ok(decisions)
}

/// The kind of the prefix at a place: that of an earlier one with the same entries, where one is known, else a new kind.
#[inline(always)]
fn kind_at<P: Protocol>(
    protocol: &P,
    lane: usize,
    place: u32,
    kinds: &[u32],
    firsts: &mut Vec<u32>,
) -> Result<u32, OutOfMemory>
    requires lane { lane < P.lanes protocol.now }
    requires place { place < length (P.candidates protocol.now) }
    requires kinds { AreKinds (AreAlikeInLane (P.routes protocol.now) lane) (P.candidates protocol.now)
        place kinds.now firsts.old.items }
    ensures { IfOk result (λ kind. AreKinds (AreAlikeInLane (P.routes protocol.now) lane)
        (P.candidates protocol.now)
        (place + 1) (kinds.now ++ kind ∷ []) firsts.new.items) }
{
    if let Some(earlier) = protocol.alike(lane, place as usize) {
        return Ok(kinds[earlier]);
    }
    let Ok(kind) = u32::try_from(firsts.len()) else {
        return Err(OutOfMemory);
    };
    firsts.push(place)?;
    Ok(kind)
}
