ghost use Rattle.std.specs.Prelude.{◌≤◌, IfOk, length};
ghost use Rattle.migrate_cli.specs.RestDecision.{IsRestTree};
ghost use Rattle.migrate_cli.specs.steps.Tables.{move_of};

use crate::OutOfMemory;
use crate::files::FILE_MOST;
use crate::moves::Move;
use crate::tables::Tables;
use live_replan::verify_rest;
use migration_report::Decision;
use net_addr::Bytes;
use std::alloc::Global;

/// What is decided of the text of a tree file from a start and a migration, by the tables before and after.
pub(crate) fn refute_rest(
    alloc: Global,
    tree: &Bytes,
    of: &Move<'_>,
) -> Result<Decision, OutOfMemory>
    requires { length tree.now ≤ FILE_MOST }
    ensures { IfOk result (IsRestTree (move_of of.now) tree.now) }
{
    let tables = Tables::of(alloc, of)?;
    let mixed = tables.mix(alloc)?;
    let verdict = verify_rest(alloc, &mixed, tree.as_slice())?;
    Ok(Decision::Tree { verdict })
}
