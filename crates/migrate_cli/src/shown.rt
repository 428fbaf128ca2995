ghost use Rattle.std.specs.Prelude.{IfOk};
ghost use Rattle.migrate_cli.specs.TablesDecision.{IsTablesDecision};

use crate::OutOfMemory;
use isis_routes::IsisRoutes;
use migration_report::Decision;
use net_model::Net;
use ospf_routes::OspfRoutes;
use shown_tables::tables_text;
use std::alloc::Global;

/// What `tables` decides of a network: the text of all entries of both protocols.
pub(crate) fn judge_tables(alloc: Global, net: &Net) -> Result<Decision, OutOfMemory>
    ensures { IfOk result (IsTablesDecision net.now) }
{
    let old = OspfRoutes::build(alloc, net)?;
    let new = IsisRoutes::build(alloc, net)?;
    let text = tables_text(alloc, net, &old, &new)?;
    Ok(Decision::Tables { text })
}
