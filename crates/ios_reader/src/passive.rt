ghost use Rattle.std.specs.Prelude.{◌≡◌, [], List, ℕ, OnOk, IfOk};
ghost use Rattle.ios_lines.specs.Lookups.{later, last_of};
ghost use Rattle.ios_reader.specs.InterfacesAsRead.{is_isis_passive};
ghost use Rattle.ios_reader.specs.Routers.{Router, passive_if_named, ospf_passive_said, isis_passive_said};
ghost use Rattle.ios_reader.specs.steps.Passives.{said_of, with_said, ArePassivesOf};

use crate::OutOfMemory;
use crate::router::Router;
use indexmap::IndexMap;
use ios_lines::isis_line::{IsisLine, IsisStatement};
use ios_lines::ospf_line::{OspfLine, OspfStatement, PassiveLine};
use ios_lines::words::is_text;
use std::alloc::Global;
use std::marker::Model;

/// So many lines of a process are gone through one by one.
const FEW_STATEMENTS: usize = 32;

/// Names of interfaces, as lines have them, each with whether it is passive.
#[derive(Drop)]
pub(crate) struct PassiveNames<'a> {
    by_name: IndexMap<&'a [u8], bool>,
}

impl<'a> Model for PassiveNames<'a> {
    ghost use Rattle.std.specs.Prelude.{List, ℕ, Bool, map};

    ghost Value = { List (List ℕ × Bool) };

    ghost view = { λ x. map (λ e. (e.0.now, e.1)) x.by_name.entries };
}

impl<'a> PassiveNames<'a> {
    /// No names.
    fn new(alloc: Global) -> PassiveNames<'a>
        ensures { result ≡ [] }
    {
        PassiveNames {
            by_name: IndexMap::new(alloc),
        }
    }

    /// Takes in whether a name is passive, in place of what was known of it.
    fn set(&mut self, name: &'a [u8], passive: bool) -> Result<(), OutOfMemory>
        ensures { OnOk result (self.new ≡ with_said self.old name.entry.now passive) }
    {
        self.by_name.insert(name, passive)?;
        Ok(())
    }

    /// Whether a name is passive, where it is there.
    pub fn get(&self, name: &[u8]) -> Option<bool>
        ensures { result ≡ said_of self.now name.now }
    {
        match self.by_name.get(name) {
            Some(passive) => Some(*passive),
            None => None,
        }
    }
}

/// Takes in a line of an OSPF process.
fn add_ospf<'a>(names: &mut PassiveNames<'a>, line: &'a OspfLine) -> Result<(), OutOfMemory>
    ensures { OnOk result ((name : List ℕ) → said_of names.new name ≡ later (said_of names.old name) (ospf_passive_said name line.entry.now)) }
{
    match line {
        OspfLine::Passive(said) => names.set(said.name.as_slice(), said.passive),
        _ => Ok(()),
    }
}

/// Takes in a line of an IS-IS process.
fn add_isis<'a>(names: &mut PassiveNames<'a>, line: &'a IsisLine) -> Result<(), OutOfMemory>
    ensures { OnOk result ((name : List ℕ) → said_of names.new name ≡ later (said_of names.old name) (isis_passive_said name line.entry.now)) }
{
    match line {
        IsisLine::Passive(said) => names.set(said.name.as_slice(), said.passive),
        _ => Ok(()),
    }
}

/// Whether interfaces are passive by the last line of an OSPF process that names them.
fn ospf_names<'a>(
    alloc: Global,
    lines: &'a [OspfStatement],
) -> Result<PassiveNames<'a>, OutOfMemory>
    ensures { IfOk result (λ names. (name : List ℕ) → said_of names name ≡ last_of (λ s. ospf_passive_said name s.says) lines.entry.now) }
{
    let mut names = PassiveNames::new(alloc);
    for statement in lines {
        add_ospf(&mut names, &statement.says)?;
    }
    Ok(names)
}

/// Whether interfaces are passive by the last line of an IS-IS process that names them.
fn isis_names<'a>(
    alloc: Global,
    lines: &'a [IsisStatement],
) -> Result<PassiveNames<'a>, OutOfMemory>
    ensures { IfOk result (λ names. (name : List ℕ) → said_of names name ≡ last_of (λ s. isis_passive_said name s.says) lines.entry.now) }
{
    let mut names = PassiveNames::new(alloc);
    for statement in lines {
        add_isis(&mut names, &statement.says)?;
    }
    Ok(names)
}

/// The later of two, where there is one.
fn later(before: Option<bool>, said: Option<bool>) -> Option<bool>
    ensures { result ≡ later before said }
{
    match said {
        Some(passive) => Some(passive),
        None => before,
    }
}

/// Whether a line makes an interface of this name passive, where it names it.
fn passive_if_named(name: &[u8], said: &PassiveLine) -> Option<bool>
    ensures { result ≡ passive_if_named name.now said.now }
{
    if is_text(said.name.as_slice(), name) {
        Some(said.passive)
    } else {
        None
    }
}

/// Whether a line of an OSPF process makes an interface of this name passive, where it names it.
fn ospf_passive_said(name: &[u8], line: &OspfLine) -> Option<bool>
    ensures { result ≡ ospf_passive_said name.now line.now }
{
    match line {
        OspfLine::Passive(said) => passive_if_named(name, said),
        _ => None,
    }
}

/// Whether an interface is passive by the last line of an OSPF process that names it, which is looked for among all.
fn last_ospf(lines: &[OspfStatement], name: &[u8]) -> Option<bool>
    ensures { result ≡ last_of (λ s. ospf_passive_said name.now s.says) lines.now }
{
    let mut last = None;
    for statement in lines {
        last = later(last, ospf_passive_said(name, &statement.says));
    }
    last
}

/// Which interfaces the lines of an OSPF process make passive.
///
/// A few lines are gone through each time that a name is asked for. Of more there is a table.
#[derive(Drop)]
pub(crate) struct OspfPassives<'a> {
    lines: &'a [OspfStatement],
    names: PassiveNames<'a>,
}

impl<'a> Model for OspfPassives<'a> {
    ghost use Rattle.std.specs.Prelude.{◌≡◌, ◌<◌, List, ℕ, length};
    ghost use Rattle.ios_lines.specs.declared.ospf_line.OspfStatement.{OspfStatement};
    ghost use Rattle.ios_lines.specs.Lookups.{last_of};
    ghost use Rattle.ios_reader.specs.Routers.{ospf_passive_said};
    ghost use Rattle.ios_reader.specs.steps.Passives.{said_of};
    ghost use Rattle.ios_reader.specs.declared.passive.TheConstants.{FEW_STATEMENTS};

    ghost Value = { List OspfStatement };

    ghost view = { λ p. p.lines.now };

    ghost invariant = { λ p. FEW_STATEMENTS < length p.lines.now
        → (name : List ℕ) → said_of p.names name ≡ last_of (λ s. ospf_passive_said name s.says) p.lines.now };
}

impl<'a> OspfPassives<'a> {
    /// Which interfaces these lines make passive.
    fn of(alloc: Global, lines: &'a [OspfStatement]) -> Result<OspfPassives<'a>, OutOfMemory>
        ensures { IfOk result (λ passives. passives ≡ lines.entry.now) }
    {
        if lines.len() <= FEW_STATEMENTS {
            return Ok(OspfPassives {
                lines,
                names: PassiveNames::new(alloc),
            });
        }
        let names = ospf_names(alloc, lines)?;
        Ok(OspfPassives { lines, names })
    }

    /// Whether an interface is passive by the last line that names it.
    pub fn get(&self, name: &[u8]) -> Option<bool>
        ensures { result ≡ last_of (λ s. ospf_passive_said name.now s.says) self.now }
    {
        if self.lines.len() <= FEW_STATEMENTS {
            last_ospf(self.lines, name)
        } else {
            self.names.get(name)
        }
    }
}

/// Whether a line of an IS-IS process makes an interface of this name passive, where it names it.
fn isis_passive_said(name: &[u8], line: &IsisLine) -> Option<bool>
    ensures { result ≡ isis_passive_said name.now line.now }
{
    match line {
        IsisLine::Passive(said) => passive_if_named(name, said),
        _ => None,
    }
}

/// Whether an interface is passive by the last line of an IS-IS process that names it, which is looked for among all.
fn last_isis(lines: &[IsisStatement], name: &[u8]) -> Option<bool>
    ensures { result ≡ last_of (λ s. isis_passive_said name.now s.says) lines.now }
{
    let mut last = None;
    for statement in lines {
        last = later(last, isis_passive_said(name, &statement.says));
    }
    last
}

/// Which interfaces the lines of an IS-IS process make passive.
///
/// A few lines are gone through each time that a name is asked for. Of more there is a table.
#[derive(Drop)]
pub(crate) struct IsisPassives<'a> {
    lines: &'a [IsisStatement],
    names: PassiveNames<'a>,
}

impl<'a> Model for IsisPassives<'a> {
    ghost use Rattle.std.specs.Prelude.{◌≡◌, ◌<◌, List, ℕ, length};
    ghost use Rattle.ios_lines.specs.declared.isis_line.IsisStatement.{IsisStatement};
    ghost use Rattle.ios_lines.specs.Lookups.{last_of};
    ghost use Rattle.ios_reader.specs.Routers.{isis_passive_said};
    ghost use Rattle.ios_reader.specs.steps.Passives.{said_of};
    ghost use Rattle.ios_reader.specs.declared.passive.TheConstants.{FEW_STATEMENTS};

    ghost Value = { List IsisStatement };

    ghost view = { λ p. p.lines.now };

    ghost invariant = { λ p. FEW_STATEMENTS < length p.lines.now
        → (name : List ℕ) → said_of p.names name ≡ last_of (λ s. isis_passive_said name s.says) p.lines.now };
}

impl<'a> IsisPassives<'a> {
    /// Which interfaces these lines make passive.
    fn of(alloc: Global, lines: &'a [IsisStatement]) -> Result<IsisPassives<'a>, OutOfMemory>
        ensures { IfOk result (λ passives. passives ≡ lines.entry.now) }
    {
        if lines.len() <= FEW_STATEMENTS {
            return Ok(IsisPassives {
                lines,
                names: PassiveNames::new(alloc),
            });
        }
        let names = isis_names(alloc, lines)?;
        Ok(IsisPassives { lines, names })
    }

    /// Whether an interface is passive by the last line that names it.
    pub fn get(&self, name: &[u8]) -> Option<bool>
        ensures { result ≡ last_of (λ s. isis_passive_said name.now s.says) self.now }
    {
        if self.lines.len() <= FEW_STATEMENTS {
            last_isis(self.lines, name)
        } else {
            self.names.get(name)
        }
    }
}

/// Which interfaces are passive, for each protocol.
#[derive(Drop)]
pub(crate) struct Passives<'a> {
    /// By the lines of the OSPF process.
    pub ospf: OspfPassives<'a>,
    /// By the lines of the IS-IS process.
    pub isis: IsisPassives<'a>,
}

impl<'a> Model for Passives<'a> {
    ghost use Rattle.ios_reader.specs.steps.Passives.{Passives};

    ghost Value = { Passives };

    ghost view = { λ p. record { ospf = p.ospf; isis = p.isis } };
}

impl<'a> Passives<'a> {
    /// Whether an interface is passive for IS-IS, on a router whose lines these names are of.
    pub fn is_isis_passive(&self, name: &[u8]) -> bool
        ensures { (router : Router) → ArePassivesOf router self.now → result ≡ is_isis_passive router name.now }
    {
        self.isis.get(name).unwrap_or(false)
    }
}

/// Which interfaces the lines of the two processes make passive.
pub(crate) fn passives_of<'a>(
    alloc: Global,
    router: &Router<'a>,
) -> Result<Passives<'a>, OutOfMemory>
    ensures { IfOk result (ArePassivesOf router.now) }
{
    let ospf = OspfPassives::of(alloc, router.ospf)?;
    let isis = IsisPassives::of(alloc, router.isis)?;
    Ok(Passives { ospf, isis })
}
