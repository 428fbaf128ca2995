ghost use Rattle.std.specs.Prelude.{◌≡◌, ◌↔◌, is_some, IsTrue, Any};
ghost use Rattle.ospf_pair.specs.RouterConditions.{HasNoneAlike, IsUpAlike};

use net_model::{Config, Interface, MOST_DISTANCE};

/// What no router of a pair may be: told by its configuration in the old network and in the new one.
pub(crate) trait PairCondition {
    ghost use Rattle.net_model.specs.Configuration.{Configuration};

    /// The condition.
    ghost condition: { Configuration → Configuration → Type 0 };

    /// Whether a router meets it.
    fn is_met(old: &Config, new: &Config) -> bool
        ensures { IsTrue result ↔ condition old.now new.now };
}

/// Its up interfaces differ in name, address, subnet, or in whether they run OSPF.
pub(crate) struct OtherInterfaces;

impl PairCondition for OtherInterfaces {
    ghost use Rattle.ospf_pair.specs.RouterConditions.{HaveOtherInterfaces};

    ghost condition = { HaveOtherInterfaces };

    fn is_met(old: &Config, new: &Config) -> bool {
        lacks_some(old.interfaces.as_slice(), new.interfaces.as_slice())
            || lacks_some(new.interfaces.as_slice(), old.interfaces.as_slice())
    }
}

/// It has an IS-IS process.
pub(crate) struct IsisRun;

impl PairCondition for IsisRun {
    ghost use Rattle.ospf_pair.specs.RouterConditions.{RunsIsis};

    ghost condition = { RunsIsis };

    fn is_met(old: &Config, new: &Config) -> bool {
        old.isis || new.isis
    }
}

/// It has an OSPF process in one of the networks alone, or one of the same number in both.
pub(crate) struct ProcessesClash;

impl PairCondition for ProcessesClash {
    ghost use Rattle.ospf_pair.specs.RouterConditions.{HasProcessClash};

    ghost condition = { HasProcessClash };

    fn is_met(old: &Config, new: &Config) -> bool {
        match (old.process, new.process) {
            (Some(one), Some(other)) => one == other,
            (None, None) => false,
            _ => true,
        }
    }
}

/// Its new OSPF process installs routes.
pub(crate) struct LiveProcess;

impl PairCondition for LiveProcess {
    ghost use Rattle.ospf_pair.specs.RouterConditions.{IsNotIdle};

    ghost condition = { IsNotIdle };

    fn is_met(_old: &Config, new: &Config) -> bool {
        new.process.is_some() && new.distances.ospf != MOST_DISTANCE
    }
}

/// Whether some up interface of the first list has none alike in the second.
fn lacks_some(interfaces: &[Interface], others: &[Interface]) -> bool
    ensures { IsTrue result ↔ Any (HasNoneAlike others.now) interfaces.now }
{
    interfaces
        .iter()
        .any(|interface| has_none_alike(others, interface))
}

/// Whether an interface is up and none of the others is alike.
fn has_none_alike(others: &[Interface], interface: &Interface) -> bool
    ensures { IsTrue result ↔ HasNoneAlike others.now interface.now }
{
    interface.up && !has_alike(interface, others)
}

/// Whether one of the others is alike.
fn has_alike(interface: &Interface, others: &[Interface]) -> bool
    ensures { IsTrue result ↔ Any (IsUpAlike interface.now) others.now }
{
    others.iter().any(|other| is_up_alike(interface, other))
}

/// Whether another interface is up, has the name, address and subnet of this one, and runs OSPF where this one does.
fn is_up_alike(interface: &Interface, other: &Interface) -> bool
    ensures { IsTrue result ↔ IsUpAlike interface.now other.now }
{
    other.up
        && interface.name.as_slice() == other.name.as_slice()
        && interface.address == other.address
        && interface.subnet == other.subnet
        && interface.area.is_some() == other.area.is_some()
}
