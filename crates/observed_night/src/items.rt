ghost use Rattle.std.specs.Prelude.{◌≡◌, ◌↔◌, All, Any, Contains, IsTrue};
ghost use Rattle.observed_night.specs.Parts.{HaveSameItems};
ghost use Rattle.observed_night.specs.steps.SameItems.{HaveSameHead, HaveSameIsis, HaveSameOspf};

use net_model::{Interface, Range, Stub};

/// What a configuration has several of, told apart by all that is said of each.
pub(crate) trait Item {
    /// Whether two are the same.
    fn is_same(&self, other: &Self) -> bool
        ensures { IsTrue result ↔ (self.now ≡ other.now) };
}

impl Item for Interface {
    fn is_same(&self, other: &Interface) -> bool {
        has_same_head(self, other) && has_same_ospf(self, other) && has_same_isis(self, other)
    }
}

impl Item for Range {
    fn is_same(&self, other: &Range) -> bool {
        self.area == other.area
            && self.dest == other.dest
            && self.advertise == other.advertise
            && self.cost == other.cost
    }
}

impl Item for Stub {
    fn is_same(&self, other: &Stub) -> bool {
        self.area == other.area
            && self.no_summary == other.no_summary
            && self.default_cost == other.default_cost
    }
}

/// Whether two interfaces have the same name, address and subnet, and are up and loopbacks alike.
fn has_same_head(one: &Interface, other: &Interface) -> bool
    ensures { IsTrue result ↔ HaveSameHead one.now other.now }
{
    one.name.as_slice() == other.name.as_slice()
        && one.address == other.address
        && one.subnet == other.subnet
        && one.up == other.up
        && one.loopback == other.loopback
}

/// Whether the same is said of the OSPF of two interfaces.
fn has_same_ospf(one: &Interface, other: &Interface) -> bool
    ensures { IsTrue result ↔ HaveSameOspf one.now other.now }
{
    one.area == other.area && one.cost == other.cost && one.ospf_passive == other.ospf_passive
}

/// Whether the same is said of the IS-IS of two interfaces.
fn has_same_isis(one: &Interface, other: &Interface) -> bool
    ensures { IsTrue result ↔ HaveSameIsis one.now other.now }
{
    one.level1 == other.level1
        && one.level2 == other.level2
        && one.metric1 == other.metric1
        && one.metric2 == other.metric2
        && one.isis_passive == other.isis_passive
}

/// Whether two lists have the same items, in whatever order.
pub(crate) fn have_same_items<T: Item>(ones: &[T], others: &[T]) -> bool
    ensures { IsTrue result ↔ HaveSameItems ones.now others.now }
{
    are_among(ones, others) && are_among(others, ones)
}

/// Whether each of some items is among others.
fn are_among<T: Item>(items: &[T], others: &[T]) -> bool
    ensures { IsTrue result ↔ All (Contains others.now) items.now }
{
    for each in items {
        if !is_among(each, others) {
            return false;
        }
    }
    true
}

/// Whether an item is among others.
fn is_among<T: Item>(item: &T, others: &[T]) -> bool
    ensures { IsTrue result ↔ Contains others.now item.now }
{
    others.iter().any(|other| item.is_same(other))
}
