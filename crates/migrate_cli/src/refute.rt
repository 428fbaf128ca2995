ghost use Rattle.std.specs.Prelude.{◌≤◌, IfOk, length};
ghost use Rattle.migrate_cli.specs.RefuteDecision.{IsRefuteDecision, IsTreeDecision};
ghost use Rattle.migrate_cli.specs.steps.Tables.{move_of};

use crate::OutOfMemory;
use crate::changes::refute_changes;
use crate::files::FILE_MOST;
use crate::first_lines::begins_with;
use crate::moves::Move;
use crate::rest::refute_rest;
use crate::tables::Tables;
use migration_report::Decision;
use net_addr::Bytes;
use net_model::Net;
use refutation_check::verify;
use std::alloc::Global;

/// What is decided of the text of a tree file, of routers, of single changes or from a start, and a network, by the tables of OSPF and
/// of IS-IS.
pub(crate) fn judge_refute(alloc: Global, tree: &Bytes, net: &Net) -> Result<Decision, OutOfMemory>
    requires { length tree.now ≤ FILE_MOST }
    ensures { IfOk result (IsRefuteDecision tree.now net.now) }
{
    let of = Move::to_isis(net);
    if begins_with(b"tree 2", tree.as_slice()) {
        refute_changes(alloc, tree, &of)
    } else if begins_with(b"tree 3", tree.as_slice()) {
        refute_rest(alloc, tree, &of)
    } else {
        refute_over(alloc, tree, &of)
    }
}

/// What is decided of the text of a tree file of routers and a migration, by the tables before and after.
pub(crate) fn refute_over(
    alloc: Global,
    tree: &Bytes,
    of: &Move<'_>,
) -> Result<Decision, OutOfMemory>
    requires { length tree.now ≤ FILE_MOST }
    ensures { IfOk result (IsTreeDecision (move_of of.now) tree.now) }
{
    let tables = Tables::of(alloc, of)?;
    let mixed = tables.mix(alloc)?;
    let verdict = verify(alloc, &mixed, tree.as_slice())?;
    Ok(Decision::Tree { verdict })
}
