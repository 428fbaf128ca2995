ghost use Rattle.std.specs.Prelude.{◌≡◌, [], ◌∷◌, ◌++◌, true, false, not, map, position, bytes_eq, IfOk, OnOk, if◌then◌else◌};
ghost use Rattle.std.specs.List.{list_any, position_or_len};
ghost use Rattle.ios_sections.specs.Gathering.{with_interface, with_section, gathering_of};

use crate::OutOfMemory;
use crate::name_index::{NameIndex, NamePlace};
use crate::section::{FIRST_SECTIONS, InterfaceSection, IsisSection, OspfSection, Section};
use ios_lines::fault::Fault;
use ios_lines::words::is_text;
use net_addr::Name;
use std::alloc::Global;
use std::marker::Model;

/// What the sections of a configuration say, gathered by what they are sections of.
#[derive(Drop)]
pub(crate) struct Gathering {
    /// The router's name, of the last good `hostname` line.
    pub name: Option<Name>,
    /// The interfaces, the sections of each as one, in the order in which they come first.
    pub interfaces: Vec<InterfaceSection>,
    /// The sections of OSPF processes.
    pub ospf: Vec<OspfSection>,
    /// The sections of IS-IS processes.
    pub isis: Vec<IsisSection>,
    /// The faults that lines at indent 0 have by themselves.
    pub faults: Vec<Fault>,
}

impl Model for Gathering {
    ghost use Rattle.ios_sections.specs.Gathering.{Gathering};

    ghost Value = { Gathering };

    ghost view = { λ g. record { name = g.name; interfaces = g.interfaces.items; ospf = g.ospf.items; isis = g.isis.items; faults = g.faults.items } };
}

/// A section of a name that isn't there goes last.
#[tactic(auto, using(crate::proofs::TableFacts::table_new))]
fn push_new(
    interfaces: &mut Vec<InterfaceSection>,
    section: InterfaceSection,
) -> Result<(), OutOfMemory>
    requires { list_any (bytes_eq section.name) (map (λ s. s.name) interfaces.old.items) ≡ false }
    ensures { OnOk result (interfaces.new.items ≡ with_interface interfaces.old.items section) }
{
    interfaces.push(section)?;
    Ok(())
}

/// The lines of a section of a name that is there go after those of that name.
fn append_at(
    interfaces: &mut Vec<InterfaceSection>,
    place: usize,
    section: InterfaceSection,
) -> Result<(), OutOfMemory>
    requires known { list_any (bytes_eq section.name) (map (λ s. s.name) interfaces.old.items) ≡ true }
    requires place { place ≡ position_or_len (bytes_eq section.name) (map (λ s. s.name) interfaces.old.items) }
    ensures { OnOk result (interfaces.new.items ≡ with_interface interfaces.old.items section) }
{
    let lines = &mut interfaces[place].lines;
    lines.append(section.lines)
}

/// The place of the first interface of a name.
fn first_named(interfaces: &[InterfaceSection], name: &[u8]) -> Option<usize>
    ensures { result ≡ position (λ s. bytes_eq name.now s.name) interfaces.now }
{
    interfaces
        .iter()
        .position(|section| is_text(name, section.name.as_slice()))
}

/// Where a name stands among those of some interfaces, or behind them, where none has it.
fn place_among(interfaces: &[InterfaceSection], name: &[u8]) -> NamePlace
    ensures place { result.place ≡ position_or_len (bytes_eq name.now) (map (λ s. s.name) interfaces.now) }
    ensures added { result.added ≡ not (list_any (bytes_eq name.now) (map (λ s. s.name) interfaces.now)) }
{
    match first_named(interfaces, name) {
        Some(place) => NamePlace {
            place,
            added: false,
        },
        None => NamePlace {
            place: interfaces.len(),
            added: true,
        },
    }
}

/// Where a name stands among those of the interfaces so far. Few are gone through one by one; of more the names are indexed.
fn place_of(
    alloc: Global,
    names: &mut NameIndex,
    few: bool,
    interfaces: &[InterfaceSection],
    name: &[u8],
) -> Result<NamePlace, OutOfMemory>
    requires { few ≡ false → names.old ≡ map (λ s. s.name) interfaces.now }
    ensures place { IfOk result (λ r. r.place ≡ position_or_len (bytes_eq name.now) (map (λ s. s.name) interfaces.now)) }
    ensures added { IfOk result (λ r. r.added ≡ not (list_any (bytes_eq name.now) (map (λ s. s.name) interfaces.now))) }
    ensures names { few ≡ false → OnOk result (names.new ≡ (if list_any (bytes_eq name.now) names.old then names.old else names.old ++ name.now ∷ [])) }
{
    if few {
        Ok(place_among(interfaces, name))
    } else {
        names.add(alloc, name)
    }
}

/// One more section of an interface: its lines go after those of its name.
fn with_interface(
    alloc: Global,
    names: &mut NameIndex,
    few: bool,
    interfaces: &mut Vec<InterfaceSection>,
    section: InterfaceSection,
) -> Result<(), OutOfMemory>
    requires { few ≡ false → names.old ≡ map (λ s. s.name) interfaces.old.items }
    ensures index { OnOk result (few ≡ false → names.new ≡ map (λ s. s.name) interfaces.new.items) }
    ensures sections { OnOk result (interfaces.new.items ≡ with_interface interfaces.old.items section) }
{
    let NamePlace { place, added } = place_of(
        alloc,
        names,
        few,
        interfaces.as_slice(),
        section.name.as_slice(),
    )?;
    if added {
        push_new(interfaces, section)
    } else {
        append_at(interfaces, place, section)
    }
}

/// One more section.
fn with_section(
    alloc: Global,
    names: &mut NameIndex,
    few: bool,
    gathering: &mut Gathering,
    section: Section,
) -> Result<(), OutOfMemory>
    requires { few ≡ false → names.old ≡ map (λ s. s.name) gathering.old.interfaces }
    ensures value { OnOk result (gathering.new ≡ with_section gathering.old section) }
    ensures index { OnOk result (few ≡ false → names.new ≡ map (λ s. s.name) gathering.new.interfaces) }
{
    match section {
        Section::Hostname(name) => gathering.name = Some(name),
        Section::Interface(section) => with_interface(
            alloc,
            names,
            few,
            &mut gathering.interfaces,
            section,
        )?,
        Section::Ospf(section) => gathering.ospf.push(section)?,
        Section::Isis(section) => gathering.isis.push(section)?,
        Section::Faulty(fault) => gathering.faults.push(fault)?,
        Section::Other => {}
    }
    Ok(())
}

/// What the sections of a configuration say, gathered.
#[tactic(auto, using(crate::proofs::GatheringFacts::gathered_all))]
pub(crate) fn gather(alloc: Global, sections: Vec<Section>) -> Result<Gathering, OutOfMemory>
    ensures { IfOk result (λ g. g ≡ gathering_of sections.items) }
{
    let room = sections.len().min(FIRST_SECTIONS);
    let few = sections.len() <= FIRST_SECTIONS;
    let mut names = NameIndex::with_room(alloc, if few { 0 } else { room })?;
    let mut gathering = Gathering {
        name: None,
        interfaces: Vec::with_capacity(alloc, room)?,
        ospf: Vec::new(alloc),
        isis: Vec::new(alloc),
        faults: Vec::new(alloc),
    };
    for section in sections {
        with_section(alloc, &mut names, few, &mut gathering, section)?;
    }
    Ok(gathering)
}
