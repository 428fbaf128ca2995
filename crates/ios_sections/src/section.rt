ghost use Rattle.std.specs.Prelude.{◌≡◌, ◌++◌, OnOk, OnErr};

use crate::OutOfMemory;
use ios_lines::fault::Fault;
use ios_lines::interface_line::InterfaceStatement;
use ios_lines::isis_line::IsisStatement;
use ios_lines::ospf_line::OspfStatement;
use net_addr::Name;
use std::marker::Model;

/// There is room for so many sections from the beginning: most configurations have fewer that say something.
pub(crate) const FIRST_SECTIONS: usize = 32;

/// Lines of an interface, in the order of the text.
#[derive(Debug, Drop)]
pub struct InterfaceStatements {
    all: Vec<InterfaceStatement>,
}

impl Model for InterfaceStatements {
    ghost use Rattle.std.specs.Prelude.{List};
    ghost use Rattle.ios_lines.specs.declared.interface_line.InterfaceStatement.{InterfaceStatement};

    ghost Value = { List InterfaceStatement };

    ghost view = { λ x. x.all.items };
}

impl InterfaceStatements {
    /// The lines of a vector, in its order.
    pub fn from_vec(all: Vec<InterfaceStatement>) -> InterfaceStatements
        ensures { result ≡ all.items }
    {
        InterfaceStatements { all }
    }

    /// The lines as a slice.
    pub fn as_slice(&self) -> &[InterfaceStatement]
        ensures { result.now ≡ self.now }
    {
        self.all.as_slice()
    }

    /// Takes in more lines, after those that are there.
    pub fn append(&mut self, more: InterfaceStatements) -> Result<(), OutOfMemory>
        ensures ok { OnOk result (self.new ≡ self.old ++ more) }
        ensures err { OnErr result (self.new ≡ self.old) }
    {
        let mut more = more.all;
        self.all.append(&mut more)
    }
}

/// Lines of `router ospf`, in the order of the text.
#[derive(Debug, Drop)]
pub struct OspfStatements {
    all: Vec<OspfStatement>,
}

impl Model for OspfStatements {
    ghost use Rattle.std.specs.Prelude.{List};
    ghost use Rattle.ios_lines.specs.declared.ospf_line.OspfStatement.{OspfStatement};

    ghost Value = { List OspfStatement };

    ghost view = { λ x. x.all.items };
}

impl OspfStatements {
    /// The lines of a vector, in its order.
    pub fn from_vec(all: Vec<OspfStatement>) -> OspfStatements
        ensures { result ≡ all.items }
    {
        OspfStatements { all }
    }

    /// The lines as a slice.
    pub fn as_slice(&self) -> &[OspfStatement]
        ensures { result.now ≡ self.now }
    {
        self.all.as_slice()
    }

    /// Puts the lines behind some others. Where there are none they stay in their vector.
    pub(crate) fn append_to(self, lines: &mut Vec<OspfStatement>) -> Result<(), OutOfMemory>
        ensures { OnOk result (lines.new.items ≡ lines.old.items ++ self) }
    {
        let mut more = self.all;
        if lines.is_empty() {
            *lines = more;
            return Ok(());
        }
        lines.append(&mut more)
    }
}

/// Lines of `router isis`, in the order of the text.
#[derive(Debug, Drop)]
pub struct IsisStatements {
    all: Vec<IsisStatement>,
}

impl Model for IsisStatements {
    ghost use Rattle.std.specs.Prelude.{List};
    ghost use Rattle.ios_lines.specs.declared.isis_line.IsisStatement.{IsisStatement};

    ghost Value = { List IsisStatement };

    ghost view = { λ x. x.all.items };
}

impl IsisStatements {
    /// The lines of a vector, in its order.
    pub fn from_vec(all: Vec<IsisStatement>) -> IsisStatements
        ensures { result ≡ all.items }
    {
        IsisStatements { all }
    }

    /// The lines as a slice.
    pub fn as_slice(&self) -> &[IsisStatement]
        ensures { result.now ≡ self.now }
    {
        self.all.as_slice()
    }

    /// Puts the lines behind some others. Where there are none they stay in their vector.
    pub(crate) fn append_to(self, lines: &mut Vec<IsisStatement>) -> Result<(), OutOfMemory>
        ensures { OnOk result (lines.new.items ≡ lines.old.items ++ self) }
    {
        let mut more = self.all;
        if lines.is_empty() {
            *lines = more;
            return Ok(());
        }
        lines.append(&mut more)
    }
}

/// A section of an interface, or all of its sections as one.
#[derive(Debug, Drop)]
pub struct InterfaceSection {
    /// The number of its first `interface` line.
    pub line: u32,
    /// The name of the interface.
    pub name: Name,
    /// The lines of the section.
    pub lines: InterfaceStatements,
}

/// A section of an OSPF process.
#[derive(Debug, Drop)]
pub struct OspfSection {
    /// The number of its `router ospf` line.
    pub line: u32,
    /// The number of the process, from 1 to `net_model::MOST_PROCESS`.
    pub process: u32,
    /// The lines of the section.
    pub lines: OspfStatements,
}

/// A section of an IS-IS process.
#[derive(Debug, Drop)]
pub struct IsisSection {
    /// The number of its `router isis` line.
    pub line: u32,
    /// The tag of the process, empty where it has none.
    pub tag: Name,
    /// The lines of the section.
    pub lines: IsisStatements,
}

/// What a section says.
#[derive(Debug, Drop)]
pub enum Section {
    /// the name of the router
    Hostname(Name),
    /// an interface
    Interface(InterfaceSection),
    /// an OSPF process
    Ospf(OspfSection),
    /// an IS-IS process
    Isis(IsisSection),
    /// a section whose first line is faulty
    Faulty(Fault),
    /// a section without meaning here
    Other,
}
