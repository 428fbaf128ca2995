ghost use Rattle.std.specs.Prelude.{◌≡◌, ◌<◌, ℕ, List, length, Contains, IfOk, IfSome, MatchOption};
ghost use Rattle.net_addr.specs.Addresses.{Block};
ghost use Rattle.route_core.specs.declared.entry.Entry.{Entry};
ghost use Rattle.route_tables.specs.Entries.{IsLawful};
ghost use Rattle.route_tables.specs.Lanes.{DecidesBehind, DecidesFor};
ghost use Rattle.route_tables.specs.Prefixes.{AreDistinctPrefixes, prefix_at};
ghost use Rattle.route_tables.specs.Protocols.{AreAlikeInLane, IsRouteOf, ProtocolRoutes};

use crate::OutOfMemory;
use crate::lane::{Behind, Decision};
use crate::route::Route;
use net_addr::Prefix;
use std::alloc::Global;
use walk_core::LeastWalks;

/// A routing protocol on a network: what it gives each router.
///
/// The answers are functions of the protocol, so they don't change while it stays as it is.
pub trait Protocol {
    /// What it gives each router, and the lanes that its routers fall into.
    ghost routes: { Self → ProtocolRoutes };

    /// Whether the second router is a neighbor of the first one.
    ghost neighbor: { Self → ℕ → ℕ → Type 0 };

    /// The prefixes that it may give entries for.
    ghost candidates: { Self → List Block };

    /// How many lanes its routers fall into.
    ghost lanes: { Self → ℕ };

    /// How many routers there are. They are numbered from 0.
    fn routers(&self) -> u32
        ensures count { result ≡ (routes self.now).routers }
        ensures lawful { IsLawful (routes self.now).routers (routes self.now).entry (neighbor self.now) };

    /// How many prefixes there are that it may give entries for. They are numbered from 0.
    fn candidates(&self) -> usize
        ensures count { result ≡ length (candidates self.now) }
        ensures distinct { AreDistinctPrefixes (candidates self.now) }
        ensures every { (router : ℕ) (p : Block) (e : Entry) → router < (routes self.now).routers →
            (routes self.now).entry router p e → Contains (candidates self.now) p };

    /// The prefix of this number.
    fn candidate(&self, place: usize) -> Prefix
        requires { place < length (candidates self.now) }
        ensures { result ≡ prefix_at (candidates self.now) place };

    /// How many lanes its routers fall into. They are numbered from 0.
    fn lanes(&self) -> usize
        ensures { result ≡ lanes self.now };

    /// The lane that a router is in.
    fn lane(&self, router: u32) -> usize
        requires { router < (routes self.now).routers }
        ensures is { (routes self.now).in_lane result router }
        ensures below { result < lanes self.now };

    /// The number of an earlier prefix for which every router of a lane has the same entries, where one is known.
    fn alike(&self, lane: usize, place: usize) -> Option<usize>
        requires lane { lane < lanes self.now }
        requires place { place < length (candidates self.now) }
        ensures earlier { IfSome result (λ earlier. earlier < place) }
        ensures alike { IfSome result (λ earlier. AreAlikeInLane (routes self.now) lane
            (prefix_at (candidates self.now) earlier) (prefix_at (candidates self.now) place)) };

    /// The zone over which the offers are reached that decide in a lane, where what decides is known there.
    fn zone_of_lane(&self, lane: usize) -> Option<usize>
        requires { lane < lanes self.now }
        ensures is { IfSome result (λ zone. zone ≡ (routes self.now).lane_zone lane) }
        ensures below { IfSome result (λ zone. zone < (routes self.now).zones) };

    /// What decides the routes of the routers of a lane for the prefix of this number.
    fn decision(&self, lane: usize, place: usize) -> Decision
        requires lane { lane < lanes self.now }
        requires place { place < length (candidates self.now) }
        ensures { DecidesFor (routes self.now) lane (prefix_at (candidates self.now) place) result };

    /// Another zone, over which the offers are reached that decide where those that decide in a lane aren't reached, where one
    /// is known.
    fn zone_behind(&self, lane: usize) -> Option<usize>
        requires { lane < lanes self.now }
        ensures { IfSome result (λ zone. zone < (routes self.now).zones) };

    /// What decides over a zone the routes of the routers of a lane that reach none of some first offers.
    fn behind(&self, lane: usize, place: usize, zone: usize) -> Behind
        requires lane { lane < lanes self.now }
        requires place { place < length (candidates self.now) }
        requires zone { zone < (routes self.now).zones }
        ensures { DecidesBehind (routes self.now) lane zone (prefix_at (candidates self.now) place) result };

    /// The route that it gives a router for the prefix of this number.
    fn route(&self, alloc: Global, place: usize, router: u32) -> Result<Option<Route>, OutOfMemory>
        requires place { place < length (candidates self.now) }
        requires router { router < (routes self.now).routers }
        ensures { IfOk result (λ found. MatchOption found
            ((e : Entry) → (routes self.now).entry router (prefix_at (candidates self.now) place) e → ⊥)
            (IsRouteOf (routes self.now) router (prefix_at (candidates self.now) place))) };

    /// The least walks from a router in the zone of this number.
    fn walks(&self, router: u32, zone: usize) -> &LeastWalks
        requires router { router < (routes self.now).routers }
        requires zone { zone < (routes self.now).zones }
        ensures { result.now ≡ (routes self.now).reach router zone };
}
