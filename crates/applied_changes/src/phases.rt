ghost use Rattle.std.specs.Prelude.{◌≡◌, ◌≤◌, ◌-◌, ◌==◌, if◌then◌else◌};
ghost use Rattle.igp_theory.specs.States.{changes_of, changes_on, phase_after, state_of};
ghost use Rattle.std.specs.Prelude.{take};
ghost use Rattle.applied_changes.specs.NamedPhases.{phase_named};

use igp_theory::Phase;
use net_model::Net;

/// The phase of the router of this name after so many changes along an order.
pub(crate) fn phase_named(net: &Net, order: &[u32], changes: u32, name: &[u8]) -> Phase
    ensures { result ≡ phase_named net.now (state_of order.now changes) name.now }
{
    for router in 0..net.routers() {
        if net.config(router).has_name(name) {
            return phase_of(order, changes, router);
        }
    }
    Phase::Old
}

/// The phase of a router after so many changes along an order.
fn phase_of(order: &[u32], changes: u32, router: u32) -> Phase
    ensures { result ≡ state_of order.now changes router }
{
    phase_after(made_on(order, changes, router))
}

/// How many of so many changes along an order are made on a router.
fn made_on(order: &[u32], changes: u32, router: u32) -> u32
    ensures { result ≡ changes_on router (take changes (changes_of order.now)) }
{
    let mut made = 0;
    let mut left = changes;
    for next in order {
        made += made_next(*next, left, router);
        left = left_after(left);
    }
    made
}

/// How many of the changes of the next router, of so many that are left, are made on this router.
fn made_next(next: u32, left: u32, router: u32) -> u32
    ensures made { result ≡ (if router == next then left - (left - 2) else 0) }
    ensures within { result ≤ left - (left - 2) }
{
    if router == next {
        left - left_after(left)
    } else {
        0
    }
}

/// How many of so many changes are left after those of a router.
fn left_after(left: u32) -> u32
    ensures { result ≡ left - 2 }
{
    left.saturating_sub(2)
}

/// The phase of a router after so many of its changes.
#[tactic(auto, using(crate::proofs::PhaseFacts::after_more))]
fn phase_after(made: u32) -> Phase
    ensures { result ≡ phase_after made }
{
    match made {
        0 => Phase::Old,
        1 => Phase::Middle,
        _ => Phase::New,
    }
}
