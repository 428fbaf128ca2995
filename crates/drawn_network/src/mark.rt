ghost use Rattle.std.specs.Prelude.{◌≡◌, Option};
ghost use Rattle.drawn_network.specs.Marks.{fault_marked};
ghost use Rattle.drawn_network.specs.RouterLines.{lacks_in};

use order_core::Turn;

/// What is marked in a picture: the fault of the list, if it has one.
#[derive(Clone, Copy)]
pub enum Mark<'a> {
    /// Nothing: the list is safe.
    Nothing,
    /// The ring of a loop.
    Ring {
        /// The address that the packets are for.
        address: u32,
        /// The routers of the ring, with their tags.
        turns: &'a [Turn],
    },
    /// A router that lacks a step.
    Lacking {
        /// The address that the packets are for.
        address: u32,
        /// The number of the router.
        router: u32,
    },
}

impl<'a> Mark<'a> {
    /// Whether it is that this router lacks a step.
    pub(crate) fn lacks(self, router: u32) -> bool
        ensures { result ≡ lacks_in (fault_marked self.entry) router }
    {
        match self {
            Mark::Nothing | Mark::Ring { .. } => false,
            Mark::Lacking {
                router: lacking,
                ..
            } => lacking == router,
        }
    }
}
