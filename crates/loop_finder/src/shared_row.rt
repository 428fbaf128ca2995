ghost use Rattle.std.specs.Prelude.{◌≡◌, IfOk};

use crate::row::Row;
use rib_mix::OutOfMemory;
use std::alloc::Global;
use std::marker::Model;
use std::rc::Rc;

/// A row that parts share where a router has the same hops in them.
#[derive(Drop)]
pub(crate) struct SharedRow<'m> {
    row: Rc<Row<'m>>,
}

impl<'m> Model for SharedRow<'m> {
    ghost use Rattle.loop_finder.specs.Parts.{PhaseHops};

    ghost Value = { PhaseHops };

    ghost view = { λ x. x.row.value };
}

impl<'m> SharedRow<'m> {
    /// A row that no other part has yet.
    pub fn of(alloc: Global, row: Row<'m>) -> Result<SharedRow<'m>, OutOfMemory>
        ensures { IfOk result (λ shared. shared ≡ row.entry) }
    {
        Ok(SharedRow {
            row: Rc::new(alloc, row)?,
        })
    }

    /// The same row for another part.
    pub fn shared(&self) -> Result<SharedRow<'m>, OutOfMemory>
        ensures { IfOk result (λ shared. shared ≡ self.now) }
    {
        Ok(SharedRow {
            row: self.row.clone()?,
        })
    }

    /// The row.
    #[inline(always)]
    pub fn as_row(&self) -> &Row<'m>
        ensures { result.now ≡ self.now }
    {
        &self.row
    }
}
