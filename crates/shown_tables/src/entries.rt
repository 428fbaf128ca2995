ghost use Rattle.std.specs.Prelude.{◌≡◌, ◌<◌, ◌++◌, ◌∷◌, [], All, IfOk, length};
ghost use Rattle.net_model.specs.RouterNames.{names_of};
ghost use Rattle.printed_lines.specs.Words.{router_word, spaced};
ghost use Rattle.route_core.specs.Rows.{listed};
ghost use Rattle.shown_tables.specs.EntryLines.{entry_words, hop_words, shown_line};
ghost use Rattle.shown_tables.specs.steps.Places.{AreInPrefixOrder, front_words};
ghost use Rattle.shown_tables.specs.steps.Shown.{HaveHopsBelow, IsOfShownTable, Shows};
ghost use Rattle.igp_theory.specs.Routes.{HasHopsBelow};

use crate::igp::Igp;
use crate::places::Placed;
use net_model::Net;
use route_core::{Entry, Hops, OutOfMemory, Table};

/// Whose table it is, and of which protocol.
#[derive(Clone, Copy)]
pub(crate) struct Owner<'a> {
    pub net: &'a Net,
    pub router: u32,
    pub igp: Igp,
}

/// Adds the entries of a table to a text, in the order of the prefixes of all tables of its source.
pub(crate) fn add_table(
    text: &mut Vec<u8>,
    owner: Owner<'_>,
    places: &[Placed],
    table: &Table,
) -> Result<(), OutOfMemory>
    requires router { owner.router < length owner.net.now }
    requires places { AreInPrefixOrder owner.igp table.now.prefixes places.now }
    requires hops { HaveHopsBelow (length owner.net.now) (listed table.now) }
    ensures { IfOk result (λ _. Shows (names_of owner.entry.net.now)
        (IsOfShownTable owner.entry.router owner.entry.igp (listed table.now)) text.old.items text.new.items) }
{
    let parts = table.parts();
    for placed in places {
        if let Some(number) = parts.number(placed.place) {
            add_entry(text, owner, placed, &parts.entries[number as usize])?;
        }
    }
    Ok(())
}

/// Adds the line of the entry for a prefix.
fn add_entry(
    text: &mut Vec<u8>,
    owner: Owner<'_>,
    placed: &Placed,
    entry: &Entry,
) -> Result<(), OutOfMemory>
    requires router { owner.router < length owner.net.now }
    requires front { placed.now.front ≡ front_words owner.igp placed.now.dest }
    requires hops { HasHopsBelow (length owner.net.now) entry.now }
    ensures { IfOk result (λ _. text.new.items ≡ text.old.items ++ shown_line (names_of owner.entry.net.now)
        (record { router = owner.entry.router; igp = owner.entry.igp; dest = placed.now.dest; entry = entry.now }) ++ 10 ∷ []) }
{
    text.extend_from_slice(name_of(owner.net, owner.router))?;
    text.extend_from_slice(placed.front.as_slice())?;
    add_said(text, owner.net, entry)?;
    text.push(b'\n')?;
    Ok(())
}

/// Adds what an entry says of its prefix, each word after a blank.
fn add_said(text: &mut Vec<u8>, net: &Net, entry: &Entry) -> Result<(), OutOfMemory>
    requires { HasHopsBelow (length net.now) entry.now }
    ensures { IfOk result (λ _. text.new.items ≡ text.old.items ++ spaced (entry_words (names_of net.now) entry.now)) }
{
    match entry {
        Entry::Via(hops) => {
            text.extend_from_slice(b" via")?;
            add_hops(text, net, hops)
        }
        Entry::Discard => text.extend_from_slice(b" discard"),
    }
}

/// Adds the names of hops, each after a blank.
fn add_hops(text: &mut Vec<u8>, net: &Net, hops: &Hops) -> Result<(), OutOfMemory>
    requires { All (λ h. h < length net.now) hops.now }
    ensures { IfOk result (λ _. text.new.items ≡ text.old.items ++ spaced (hop_words (names_of net.now) hops.now)) }
{
    for hop in hops.as_slice() {
        text.push(b' ')?;
        text.extend_from_slice(name_of(net, *hop))?;
    }
    Ok(())
}

/// The name of a router.
fn name_of(net: &Net, router: u32) -> &[u8]
    requires { router < length net.now }
    ensures { result.now ≡ router_word (names_of net.now) router }
{
    net.config(router).name.as_slice()
}
