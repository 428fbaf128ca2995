ghost use Rattle.std.specs.Prelude.{◌≡◌, ◌≤◌, Some, OnOk, OnErr};
ghost use Rattle.std.specs.Vec.{vec_capacity};
ghost use Rattle.route_tables.specs.Lists.{Adds};

use crate::OutOfMemory;

/// Adds an element, if there is one.
pub fn push_option<T: Drop>(all: &mut Vec<T>, one: Option<T>) -> Result<(), OutOfMemory>
    ensures ok { OnOk result (Adds all.old.items all.new.items (λ x. one ≡ Some x)) }
    ensures err { OnErr result (all.new.items ≡ all.old.items) }
    ensures no_less { vec_capacity all.old ≤ vec_capacity all.new }
{
    match one {
        Some(one) => Ok(all.push(one)?),
        None => Ok(()),
    }
}
