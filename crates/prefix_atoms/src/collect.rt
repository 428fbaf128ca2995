ghost use Rattle.std.specs.Prelude.{◌≡◌, ◌<◌, ◌++◌, [], IfOk, OnOk, length, map};
ghost use Rattle.std.specs.List.{cons_option, filter_map, range_with_len};
ghost use Rattle.net_model.specs.DestLists.{all_dests, subnet_if_up};
ghost use Rattle.prefix_atoms.specs.Originated.{all_originated, originated_subnet};
ghost use Rattle.prefix_atoms.specs.steps.Lists.{AreUnseen, GainsPrefixes, seen_prefix, source_prefixes, unseen_place};
ghost use Rattle.route_core.specs.Rows.{IsTable, kept_in, row_prefixes, rows_in};

use net_addr::Prefix;
use net_model::{Interface, Net, Range};
use route_core::{RouteSource, TableParts};
use std::alloc::{AllocError as OutOfMemory, Global};

/// The subnets that can be targets: those of interfaces that are up and run a protocol.
pub(crate) fn originated_prefixes(alloc: Global, net: &Net) -> Result<Vec<Prefix>, OutOfMemory>
    ensures { IfOk result (λ v. v.items ≡ all_originated net.now) }
{
    let mut prefixes = Vec::new(alloc);
    for router in 0..net.routers() {
        let config = net.config(router);
        add_originated(&mut prefixes, config.interfaces.as_slice())?;
    }
    Ok(prefixes)
}

/// Adds the subnets and the ranges of all routers.
pub(crate) fn add_net(prefixes: &mut Vec<Prefix>, net: &Net) -> Result<(), OutOfMemory>
    ensures { OnOk result (prefixes.new.items ≡ prefixes.old.items ++ all_dests net.now) }
{
    for router in 0..net.routers() {
        let config = net.config(router);
        add_connected(prefixes, config.interfaces.as_slice())?;
        add_ranges(prefixes, config.ranges.as_slice())?;
    }
    Ok(())
}

/// Adds the prefixes that occur in the tables of a source. It takes time of the prefixes, and for each router of those that no
/// table before had an entry for.
pub(crate) fn add_source<S: RouteSource>(
    alloc: Global,
    prefixes: &mut Vec<Prefix>,
    source: &S,
) -> Result<(), OutOfMemory>
    ensures { OnOk result (GainsPrefixes prefixes.old.items prefixes.new.items (source_prefixes (S.table source.now) (S.routers source.now))) }
{
    let mut unseen = shared_places(alloc, source)?;
    for router in 0..source.routers() {
        let table = source.table(router).parts();
        unseen = add_table(alloc, prefixes, unseen.as_slice(), table)?;
    }
    Ok(())
}

/// The places of the prefixes that the tables of a source share. 2^32 prefixes or more give `OutOfMemory`.
fn shared_places<S: RouteSource>(alloc: Global, source: &S) -> Result<Vec<u32>, OutOfMemory>
    ensures { IfOk result (λ places. 0 < S.routers source.now → places.items ≡ range_with_len 0 (length (S.prefixes source.now))) }
{
    if source.routers() == 0 {
        return Ok(Vec::new(alloc));
    }
    let Ok(count) = u32::try_from(source.table(0).parts().prefixes.len()) else {
        return Err(OutOfMemory);
    };
    (0..count).collect(alloc)
}

/// Adds the prefixes at those of some places for which a table has an entry, and says the other places.
fn add_table(
    alloc: Global,
    prefixes: &mut Vec<Prefix>,
    unseen: &[u32],
    table: TableParts<'_>,
) -> Result<Vec<u32>, OutOfMemory>
    requires table { IsTable (kept_in table) }
    requires unseen { AreUnseen table.prefixes.now unseen.now prefixes.old.items }
    ensures gains { OnOk result (GainsPrefixes prefixes.old.items prefixes.new.items
        (row_prefixes table.entry.prefixes.now (rows_in (kept_in table.entry)))) }
    ensures unseen { IfOk result (λ left. AreUnseen table.entry.prefixes.now left.items prefixes.new.items) }
{
    let mut left = Vec::new(alloc);
    for place in unseen {
        add_place(prefixes, &mut left, table, *place)?;
    }
    Ok(left)
}

/// Adds the prefix at a place where the table has an entry for it, and else leaves the place.
#[inline(always)]
fn add_place(
    prefixes: &mut Vec<Prefix>,
    left: &mut Vec<u32>,
    table: TableParts<'_>,
    place: u32,
) -> Result<(), OutOfMemory>
    requires table { IsTable (kept_in table) }
    requires place { place < length table.prefixes.now }
    ensures seen { OnOk result (prefixes.new.items ≡ prefixes.old.items ++ cons_option (seen_prefix (kept_in table.entry) place) []) }
    ensures left { OnOk result (left.new.items ≡ left.old.items ++ cons_option (unseen_place (kept_in table.entry) place) []) }
{
    match table.number(place as usize) {
        Some(_) => Ok(prefixes.push(table.prefixes[place as usize])?),
        None => Ok(left.push(place)?),
    }
}

/// Adds the subnets of interfaces that are up.
pub fn add_connected(
    prefixes: &mut Vec<Prefix>,
    interfaces: &[Interface],
) -> Result<(), OutOfMemory>
    ensures { OnOk result (prefixes.new.items ≡ prefixes.old.items ++ filter_map subnet_if_up interfaces.now) }
{
    for interface in interfaces {
        add_some(prefixes, connected(interface))?;
    }
    Ok(())
}

/// Adds the subnets of interfaces that are up and run a protocol.
fn add_originated(prefixes: &mut Vec<Prefix>, interfaces: &[Interface]) -> Result<(), OutOfMemory>
    ensures { OnOk result (prefixes.new.items ≡ prefixes.old.items ++ filter_map originated_subnet interfaces.now) }
{
    for interface in interfaces {
        add_some(prefixes, originated(interface))?;
    }
    Ok(())
}

/// Adds the prefixes of ranges.
fn add_ranges(prefixes: &mut Vec<Prefix>, ranges: &[Range]) -> Result<(), OutOfMemory>
    ensures { OnOk result (prefixes.new.items ≡ prefixes.old.items ++ map (λ r. r.dest) ranges.now) }
{
    for range in ranges {
        prefixes.push(range.dest)?;
    }
    Ok(())
}

/// Adds a prefix where there is one.
fn add_some(prefixes: &mut Vec<Prefix>, prefix: Option<Prefix>) -> Result<(), OutOfMemory>
    ensures { OnOk result (prefixes.new.items ≡ prefixes.old.items ++ cons_option prefix []) }
{
    match prefix {
        Some(prefix) => Ok(prefixes.push(prefix)?),
        None => Ok(()),
    }
}

/// The subnet of an interface that is up.
fn connected(interface: &Interface) -> Option<Prefix>
    ensures { result ≡ subnet_if_up interface.now }
{
    if interface.up { interface.subnet } else { None }
}

/// The subnet of an interface that is up and runs a protocol.
fn originated(interface: &Interface) -> Option<Prefix>
    ensures { result ≡ originated_subnet interface.now }
{
    if interface.up && (interface.area.is_some() || interface.level1 || interface.level2) {
        interface.subnet
    } else {
        None
    }
}
