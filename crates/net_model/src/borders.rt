ghost use Rattle.std.specs.Prelude.{◌≤◌, ◌↔◌, length, Any, IfErr, IsTrue, MatchOption, OnOk};
ghost use Rattle.net_model.specs.Conditions.{BordersMeetBackbone, LacksBackbone};
ghost use Rattle.net_model.specs.Least.{IsLowest};
ghost use Rattle.net_model.specs.Refusals.{MayStand};
ghost use Rattle.net_model.specs.steps.Scans.{AreInTwoAreas, LeaveBackbone};

use crate::areas::{has_area, in_two_areas};
use crate::pairs::name_of;
use crate::{Config, Interface, MOST_ROUTERS, NetRefusal};
use std::alloc::Global;

/// Refuses the lowest border router that has no up interface in area 0.
pub fn check_borders(alloc: Global, configs: &[Config]) -> Result<(), NetRefusal>
    requires { length configs.now ≤ MOST_ROUTERS }
    ensures ok { OnOk result (BordersMeetBackbone configs.now) }
    ensures err { IfErr result (λ e. MayStand 6 e configs.now) }
{
    match first_off_backbone(configs) {
        Some(lowest) => Err(NetRefusal::BorderWithoutBackbone {
            router: name_of(alloc, configs, lowest)?,
        }),
        None => Ok(()),
    }
}

/// The lowest border router that has no up interface in area 0.
fn first_off_backbone(configs: &[Config]) -> Option<u32>
    requires { length configs.now ≤ MOST_ROUTERS }
    ensures { MatchOption result (BordersMeetBackbone configs.now) (IsLowest (LacksBackbone configs.now)) }
{
    for (router, config) in configs.iter().enumerate() {
        if leave_backbone(config.interfaces.as_slice()) {
            return Some(router as u32);
        }
    }
    None
}

/// Whether interfaces of a router are in two areas, and none is in area 0.
fn leave_backbone(interfaces: &[Interface]) -> bool
    ensures { IsTrue result ↔ LeaveBackbone interfaces.now }
{
    !has_area(interfaces, 0) && are_in_two_areas(interfaces)
}

/// Whether two of the interfaces are up and run OSPF in different areas.
fn are_in_two_areas(interfaces: &[Interface]) -> bool
    ensures { IsTrue result ↔ Any (λ i. Any (AreInTwoAreas i) interfaces.now) interfaces.now }
{
    interfaces.iter().any(|one| leaves_area(one, interfaces))
}

/// Whether the interface and one of the others are up and run OSPF in different areas.
fn leaves_area(interface: &Interface, others: &[Interface]) -> bool
    ensures { IsTrue result ↔ Any (AreInTwoAreas interface.now) others.now }
{
    others.iter().any(|other| in_two_areas(interface, other))
}
