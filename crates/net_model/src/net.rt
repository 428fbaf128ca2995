ghost use Rattle.std.specs.Prelude.{◌≡◌, ◌<◌, ◌≤◌, ◌↔◌, ℕ, length, IsTrue, IfOk, IfErr, MatchOption, OnOk};
ghost use Rattle.net_addr.specs.Addresses.{Block, ContainsAddress};
ghost use Rattle.net_model.specs.Network.{HasConfiguration, Connected, Adjacent};
ghost use Rattle.net_model.specs.Conditions.{IsConsistent};
ghost use Rattle.net_model.specs.OffStarts.{IsLowestOffStart, StartsOff};
ghost use Rattle.net_model.specs.Refusals.{IsNetwork, MakeNetwork, Refuses};
ghost use Rattle.net_model.specs.steps.Refused.{MayRefuse};
ghost use Rattle.net_model.specs.Lookups.{IsNamed, LeastArc, LongestConnected};

use crate::addresses::check_addresses;
use crate::areas::check_areas;
use crate::borders::check_borders;
use crate::limits::within_limits;
use crate::links::{best_link, may_join};
use crate::naming::{check_names, place_of, sort_by_name};
use crate::starts::first_off_start;
use crate::stubs::check_stubs;
use crate::subnets::{has_subnet, longest_subnet};
use crate::sums::{check_isis_metrics, check_ospf_costs};
use crate::systems::check_systems;
use crate::{Config, Configs, MOST_ROUTERS, NetRefusal, Zone};
use net_addr::Prefix;
use std::alloc::Global;
use std::marker::Model;

/// A network: the configurations of its routers, which are numbered from 0 in byte order of their names.
///
/// It keeps the limits, `MOST_ROUTERS`, `MOST_UP_INTERFACES` and `MOST_DESTS`, no two of its routers have one name, and
/// it is consistent in its addresses, areas, costs, system ids and stub areas (`IsConsistent`).
#[derive(Debug, Drop)]
pub struct Net {
    configs: Vec<Config>,
}

impl Model for Net {
    ghost use Rattle.net_model.specs.Network.{Network};
    ghost use Rattle.net_model.specs.Refusals.{IsNetwork};

    ghost Value = { Network };

    ghost view = { λ n. n.configs.items };

    ghost invariant = { λ n. IsNetwork n.configs.items };
}

impl Net {
    /// The network of configurations, or the first refusal that stands. The configurations are consumed either way.
    pub fn build(alloc: Global, configs: Configs) -> Result<Net, NetRefusal>
        ensures ok { IfOk result (λ net. MakeNetwork configs net) }
        ensures err { IfErr result (λ refusal. Refuses refusal configs) }
    {
        let mut configs = configs.into_vec();
        within_limits(alloc, configs.as_slice())?;
        sort_by_name(&mut configs);
        check_names(alloc, configs.as_slice())?;
        check_network(alloc, configs.as_slice())?;
        Ok(Net { configs })
    }

    /// The count of routers, at most `MOST_ROUTERS`.
    pub fn routers(&self) -> u32
        ensures count { result ≡ length self.now }
        ensures network { IsNetwork self.now }
    {
        self.configs.len() as u32
    }

    /// The configuration of a router.
    pub fn config(&self, router: u32) -> &Config
        requires { router < length self.now }
        ensures router { HasConfiguration self.now router result.now }
        ensures network { IsNetwork self.now }
    {
        &self.configs[router as usize]
    }

    /// The number of the router of this name.
    pub fn number_of(&self, name: &[u8]) -> Option<u32>
        ensures number { MatchOption result ((u : ℕ) → IsNamed self.now name.now u → ⊥) (IsNamed self.now name.now) }
        ensures network { IsNetwork self.now }
    {
        match place_of(self.configs.as_slice(), name) {
            Some(place) => Some(place as u32),
            None => None,
        }
    }

    /// The least cost at which two routers are adjacent in the zone. For users of a network as a library: the routes are found
    /// over the segments of `zone_graph`.
    pub fn arc(&self, zone: Zone, u: u32, v: u32) -> Option<u32>
        requires from { u < length self.now }
        requires to { v < length self.now }
        ensures { MatchOption result
            ((cost : ℕ) → Adjacent self.now zone u v cost → ⊥)
            (LeastArc self.now zone u v) }
    {
        let near = self.config(u);
        let far = self.config(v);
        if u == v || !may_join(zone, near, far) {
            return None;
        }
        best_link(zone, near.interfaces.as_slice(), far.interfaces.as_slice())
    }

    /// The longest prefix that is connected at the router and contains the address. For users of a network as a library: mixed
    /// forwarding looks all of them up at once.
    pub fn connected(&self, router: u32, a: u32) -> Option<Prefix>
        requires { router < length self.now }
        ensures { MatchOption result
            ((p : Block) → Connected self.now router p → ContainsAddress p a → ⊥)
            (LongestConnected self.now router a) }
    {
        let home = self.config(router);
        longest_subnet(home.interfaces.as_slice(), a)
    }

    /// Whether the prefix is the subnet of an up interface of the router.
    pub fn originates(&self, router: u32, dest: Prefix) -> bool
        requires { router < length self.now }
        ensures { IsTrue result ↔ Connected self.now router dest }
    {
        has_subnet(self.config(router).interfaces.as_slice(), dest)
    }

    /// The lowest router that isn't where a migration starts: it has an OSPF process at OSPF distance
    /// `MOST_DISTANCE`, or IS-IS at another IS-IS distance.
    pub fn off_start(&self) -> Option<u32>
        ensures { MatchOption result ((u : ℕ) → StartsOff self.now u → ⊥) (IsLowestOffStart self.now) }
    {
        first_off_start(self.configs.as_slice())
    }
}

/// Refuses routers whose conditions on addresses, areas, costs, system ids or stub areas don't hold, by the first.
fn check_network(alloc: Global, configs: &[Config]) -> Result<(), NetRefusal>
    requires { length configs.now ≤ MOST_ROUTERS }
    ensures ok { OnOk result (IsConsistent configs.now) }
    ensures err { IfErr result (λ e. MayRefuse e configs.now) }
{
    check_addresses(alloc, configs)?;
    check_areas(alloc, configs)?;
    check_borders(alloc, configs)?;
    check_ospf_costs(configs)?;
    check_isis_metrics(configs)?;
    check_systems(alloc, configs)?;
    check_stubs(alloc, configs)
}
