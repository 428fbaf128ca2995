ghost use Rattle.std.specs.Prelude.{◌≡◌, [], IfOk};
ghost use Rattle.loop_finder.specs.Works.{IsWork};

use crate::room::Room;
use rib_mix::{OutOfMemory, Phase};
use std::alloc::Global;

/// Room for the phases of two states, and to search their steps in.
#[derive(Drop)]
pub(crate) struct Work {
    /// The state that is looked at, or the first one of a wave.
    pub first: Vec<Phase>,
    /// The last one of the wave.
    pub last: Vec<Phase>,
    /// Room to search in.
    pub room: Room,
}

impl Work {
    /// That for this many routers, and no ring.
    pub fn new(alloc: Global, routers: u32) -> Result<Work, OutOfMemory>
        ensures work { IfOk result (IsWork routers) }
        ensures ring { IfOk result (λ work. work.room.ring.items ≡ []) }
    {
        let each = routers as usize;
        Ok(Work {
            first: vec![in alloc; Phase::Old; each]?,
            last: vec![in alloc; Phase::Old; each]?,
            room: Room::new(alloc, routers)?,
        })
    }
}
