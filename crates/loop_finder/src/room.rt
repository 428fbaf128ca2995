ghost use Rattle.std.specs.Prelude.{◌≡◌, [], IfOk};
ghost use Rattle.loop_finder.specs.Rooms.{HasRoom};

use order_core::Turn;
use rib_mix::OutOfMemory;
use std::alloc::Global;

/// Room to work in, made once.
#[derive(Drop)]
pub(crate) struct Room {
    /// For each router whether it has to pass packets on.
    pub forwards: Vec<bool>,
    /// For each router whether it's live.
    pub live: Vec<bool>,
    /// The routers of a walk.
    pub path: Vec<u32>,
    /// The ring of the latest loop.
    pub ring: Vec<Turn>,
}

impl Room {
    /// Room for this many routers, and no ring.
    pub fn new(alloc: Global, routers: u32) -> Result<Room, OutOfMemory>
        ensures room { IfOk result (HasRoom routers) }
        ensures ring { IfOk result (λ room. room.ring.items ≡ []) }
    {
        let each = routers as usize;
        Ok(Room {
            forwards: vec![in alloc; false; each]?,
            live: vec![in alloc; false; each]?,
            path: Vec::with_capacity(alloc, each)?,
            ring: Vec::with_capacity(alloc, each)?,
        })
    }
}
