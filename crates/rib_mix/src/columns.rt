ghost use Rattle.std.specs.Prelude.{◌≡◌, ◌<◌, [], length, slice_index_or, None, IfOk, IfSome, OnOk};
ghost use Rattle.std.specs.Bool.{OnTrue};
ghost use Rattle.rib_mix.specs.Cells.{cell_at};
ghost use Rattle.rib_mix.specs.steps.Columns.{AreCellsAt, GainColumn, HaveLength, IsColumn};
ghost use Rattle.rib_mix.specs.steps.Unlike.{HaveCells};

use crate::cell::Cell;
use route_core::OutOfMemory;
use std::alloc::Global;
use std::marker::Model;

/// What each router of a network uses for a sort of prefixes, router by router.
#[derive(Drop)]
struct Column {
    cells: Vec<Cell>,
}

impl Model for Column {
    ghost use Rattle.std.specs.Prelude.{List};
    ghost use Rattle.rib_mix.specs.declared.cell.Cell.{Cell};

    ghost Value = { List Cell };

    ghost view = { λ x. x.cells.items };
}

/// What each router of a network uses for each sort of prefixes. The cells stand sort by sort, since routers are compared by
/// their cells of two sorts. Each sort has memory of its own: such blocks fit where the tables' walks gave memory back, while
/// one block for all would be of pages that are touched for the first time.
#[derive(Drop)]
pub(crate) struct Columns {
    all: Vec<Column>,
    routers: usize,
}

impl Model for Columns {
    ghost use Rattle.std.specs.Prelude.{List};
    ghost use Rattle.rib_mix.specs.declared.cell.Cell.{Cell};
    ghost use Rattle.rib_mix.specs.steps.Columns.{AreColumns, column_rows};

    ghost Value = { List (List Cell) };

    ghost view = { λ x. column_rows x.routers x.all.items };

    ghost invariant = { λ x. AreColumns x.routers x.all.items };
}

impl Columns {
    /// So many routers that use nothing yet, with room for so many sorts.
    pub fn none(alloc: Global, routers: u32, sorts: usize) -> Result<Columns, OutOfMemory>
        ensures count { IfOk result (λ columns. length columns ≡ routers) }
        ensures lengths { IfOk result (HaveLength 0) }
    {
        let all = Vec::with_capacity(alloc, sorts)?;
        Ok(Columns {
            all,
            routers: routers as usize,
        })
    }

    /// Adds what the routers use for the next sort.
    pub fn add(&mut self, cells: Vec<Cell>) -> Result<(), OutOfMemory>
        requires { length cells.items ≡ length self.old }
        ensures { OnOk result (GainColumn cells.items self.old self.new) }
    {
        Ok(self.all.push(Column { cells })?)
    }

    /// What a router uses for a sort, and nothing where there is none.
    #[inline(always)]
    fn cell(&self, router: u32, sort: Option<u32>) -> Cell
        requires router { router < length self.now }
        requires sort { IfSome sort (λ s. s < length (slice_index_or self.now router [])) }
        ensures { result ≡ cell_at (slice_index_or self.now router []) sort }
    {
        match sort {
            Some(sort) => self.all[sort as usize].cells[router as usize],
            None => Cell::nothing(),
        }
    }

    /// What the routers use for a sort, router by router. Without routers any sort will do.
    #[inline(always)]
    pub fn of_sort(&self, sort: u32) -> &[Cell]
        requires { HaveCells self.now sort }
        ensures { IsColumn self.now sort result.now }
    {
        match self.all.get(sort as usize) {
            Some(column) => column.cells.as_slice(),
            None => &[],
        }
    }

    /// A copy of what the routers use for a sort, and of nothing where there is none.
    pub fn copy_at(&self, alloc: Global, sort: Option<u32>) -> Result<Vec<Cell>, OutOfMemory>
        requires { IfSome sort (HaveCells self.now) }
        ensures { IfOk result (λ cells. AreCellsAt self.now sort cells.items) }
    {
        match sort {
            Some(sort) => Ok(Vec::from_slice(alloc, self.of_sort(sort))?),
            None => Ok(vec![in alloc; Cell::nothing(); self.routers]?),
        }
    }
}

/// What a router uses for a class, by the sorts of the classes.
#[inline(always)]
pub(crate) fn cell_of(columns: &Columns, sorts: &[Option<u32>], router: u32, atom: u32) -> Cell
    requires router { router < length columns.now }
    requires atom { atom < length sorts.now }
    requires sort { IfSome (slice_index_or sorts.now atom None) (λ s. s < length (slice_index_or columns.now router [])) }
    ensures { result ≡ cell_at (slice_index_or columns.now router []) (slice_index_or sorts.now atom None) }
{
    columns.cell(router, sorts[atom as usize])
}

/// Whether two cells are the same.
#[inline(always)]
pub(crate) fn is_same(one: Cell, other: Cell) -> bool
    ensures { OnTrue result (one ≡ other) }
{
    one.number() == other.number()
}
