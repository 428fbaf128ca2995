ghost use Rattle.std.specs.Prelude.{◌≡◌, IfOk};
ghost use Rattle.rib_mix.specs.Sites.{AreTablesOf};
ghost use Rattle.rib_mix.specs.steps.Sites.{AreTablesInParts};

use route_core::{OutOfMemory, RouteSource, TableParts};
use std::alloc::Global;

/// Both tables of a router, in their parts.
#[derive(Clone, Copy, Debug)]
pub(crate) struct BothTables<'a> {
    /// The old table.
    pub old: TableParts<'a>,
    /// The new table.
    pub new: TableParts<'a>,
}

/// Both tables of each router of two sources.
pub(crate) fn tables_of<'a, O: RouteSource, N: RouteSource>(
    alloc: Global,
    old: &'a O,
    new: &'a N,
) -> Result<Vec<BothTables<'a>>, OutOfMemory>
    requires { N.routers new.now ≡ O.routers old.now }
    ensures tables { IfOk result (λ tables. AreTablesOf (O.table old.now) (N.table new.now) (O.routers old.now) tables.items) }
    ensures parts { IfOk result (λ tables. AreTablesInParts (O.routers old.now) tables.items) }
{
    let routers = old.routers();
    let mut tables = Vec::with_capacity(alloc, routers as usize)?;
    for router in 0..routers {
        let old = old.table(router).parts();
        let new = new.table(router).parts();
        tables.push(BothTables { old, new })?;
    }
    Ok(tables)
}
