ghost use Rattle.std.specs.Prelude.{◌≡◌};
ghost use Rattle.rib_mix.specs.Cells.{new_use, old_use, use_in, no_cell};
ghost use Rattle.rib_mix.specs.steps.Unlike.{cell_of_number};
ghost use Rattle.rib_mix.specs.steps.Uses.{cell_between, connected_cell};

use crate::used::{Use, Used};
use igp_theory::Phase;

/// What a router uses for an address in each phase. It has 8 bytes, since there is one for each router and sort of prefixes.
#[derive(Clone, Copy, Debug)]
pub(crate) struct Cell {
    /// What it uses in Middle, which is what it uses in Old or in New.
    pub middle: Use,
    /// What it uses at the other end: in Old where it uses an entry of the new table in Middle, otherwise in New.
    pub other: Use,
}

impl Cell {
    /// It uses nothing.
    #[inline(always)]
    pub fn nothing() -> Cell
        ensures { result ≡ no_cell }
    {
        Cell {
            middle: Use::nothing(),
            other: Use::nothing(),
        }
    }

    /// It uses a connected prefix.
    #[inline(always)]
    pub fn connected() -> Cell
        ensures { result ≡ connected_cell }
    {
        Cell {
            middle: Use::connected(),
            other: Use::connected(),
        }
    }

    /// What it uses in a phase.
    pub fn used(self, phase: Phase) -> Used
        ensures { result ≡ use_in self phase }
    {
        match phase {
            Phase::Old => self.in_old().get(),
            Phase::Middle => self.middle.get(),
            Phase::New => self.in_new().get(),
        }
    }

    /// What it uses in Old.
    #[inline(always)]
    pub fn in_old(self) -> Use
        ensures { result ≡ old_use self }
    {
        if self.middle.is_of_new() {
            self.other
        } else {
            self.middle
        }
    }

    /// What it uses in New.
    #[inline(always)]
    pub fn in_new(self) -> Use
        ensures { result ≡ new_use self }
    {
        if self.middle.is_of_new() {
            self.middle
        } else {
            self.other
        }
    }

    /// The codes of both uses as one number, since cells are compared more often than read.
    #[inline(always)]
    pub fn number(self) -> u64
        ensures { cell_of_number result ≡ self }
    {
        u64::from(self.middle.code()) + u64::from(self.other.code()) * NUMBER_FACTOR
    }
}

/// What the code of the other use counts for in the number of a cell: codes have 32 bits.
const NUMBER_FACTOR: u64 = 0x1_0000_0000;

/// What a router uses that has an entry of each table.
#[inline(always)]
pub(crate) fn cell_between(old: Use, new: Use, old_first: bool) -> Cell
    ensures { result ≡ cell_between old new old_first }
{
    let (middle, other) = if old_first { (old, new) } else { (new, old) };
    Cell { middle, other }
}
