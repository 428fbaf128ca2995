ghost use Rattle.std.specs.Prelude.{◌≡◌};
ghost use Rattle.survey_report.specs.NetworkLines.{protocol_cost, protocol_word};

use net_model::Interface;

/// OSPF, or a level of IS-IS.
#[derive(Clone, Copy, Debug, PartialEq, Eq)]
pub enum Protocol {
    /// OSPF.
    Ospf,
    /// Level 1 of IS-IS.
    Level1,
    /// Level 2 of IS-IS.
    Level2,
}

impl Protocol {
    /// Its word in a line.
    pub(crate) fn word(self) -> &'static [u8]
        ensures { result.now ≡ protocol_word self }
    {
        match self {
            Protocol::Ospf => b"ospf",
            Protocol::Level1 => b"level-1",
            Protocol::Level2 => b"level-2",
        }
    }

    /// What an interface costs it.
    pub(crate) fn cost(self, interface: &Interface) -> u32
        ensures { result ≡ protocol_cost self interface.now }
    {
        match self {
            Protocol::Ospf => interface.cost,
            Protocol::Level1 => interface.metric1,
            Protocol::Level2 => interface.metric2,
        }
    }
}

/// A kind of lines that are told of a network and of the texts that it was read of.
#[derive(Clone, Copy, Debug, PartialEq, Eq)]
pub enum LineKind {
    /// How much was read.
    Counts,
    /// Each router.
    Routers,
    /// Routers without an up interface that runs OSPF.
    Silent,
    /// Interfaces on which OSPF sends, and no other router is.
    Half,
    /// Interfaces whose masks don't fit.
    Masks,
    /// Interfaces on which a protocol sends, and on none of the other routers that are there.
    OneSide(Protocol),
    /// A router that no walk joins with the first one.
    Apart,
    /// Links whose ends cost a protocol differently.
    Uneven(Protocol),
    /// Routers that aren't where a migration starts.
    Start,
    /// Lines with bytes that no router prints.
    Odd,
    /// Texts that lost their indentation.
    Flat,
    /// Lines on which a router acts though they are skipped.
    Acts,
}
