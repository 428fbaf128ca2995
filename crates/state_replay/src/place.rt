/// Where a journal stands in a migration.
#[derive(Clone, Copy, Debug, PartialEq, Eq)]
pub enum Place {
    /// Its lines tell so many changes, and these begin a run.
    Reached(u32),
    /// The number of its first line that fits no run, from 1.
    Departs(u32),
}
