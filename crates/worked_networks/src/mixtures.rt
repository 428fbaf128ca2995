ghost use Rattle.std.specs.Prelude.{◌≡◌, ◌<◌, [], ◌∷◌, length, IfOk};
ghost use Rattle.route_core.specs.Rows.{listed};
ghost use Rattle.route_core.specs.declared.entry.Entry.TheVariants.{Via, Discard};

use igp_theory::Phase;
use net_addr::Prefix;
use net_model::Net;
use rib_mix::{Mixed, Next};
use route_core::{Entries, Entry, Hops, RouteSource, Table};
use std::alloc::{AllocError as OutOfMemory, Global};
use std::marker::Model;
use std::test::Fail;
use test_networks::bare;

/// A source of some routers, all with one table.
#[derive(Drop)]
struct Alike {
    routers: u32,
    table: Table,
}

impl Model for Alike {
    ghost use Rattle.std.specs.Prelude.{ℕ};
    ghost use Rattle.route_core.specs.Rows.{KeptTable, listed};
    ghost use Rattle.route_core.specs.Tables.{AreTables};

    ghost Value = { ℕ × KeptTable };

    ghost view = { λ x. (x.routers, x.table) };

    ghost invariant = { λ x. AreTables x.routers (λ _. listed x.table) (λ _ _. Unit {0}) };
}

impl RouteSource for Alike {
    ghost use Rattle.route_core.specs.Rows.{listed};

    ghost routers = { λ s. s.0 };

    ghost table = { λ s _. listed s.1 };

    ghost prefixes = { λ s. s.1.prefixes };

    ghost linked = { λ _ _ _. Unit {0} };

    fn routers(&self) -> u32 {
        self.routers
    }

    fn table(&self, _router: u32) -> &Table {
        &self.table
    }

    fn linked(&self, _u: u32, _v: u32) -> bool {
        let _ = &self.table;
        true
    }
}

/// A source of two routers, which send the packets of a prefix to the second one.
fn sends(alloc: Global, prefix: Prefix) -> Result<Alike, OutOfMemory> {
    let table = table_to_one(alloc, prefix)?;
    Ok(Alike { routers: 2, table })
}

fn table_to_one(alloc: Global, prefix: Prefix) -> Result<Table, OutOfMemory>
    ensures { IfOk result (λ table. listed table ≡ (prefix, Via (1 ∷ [])) ∷ []) }
{
    let mut hops = Vec::new(alloc);
    hops.push(1)?;
    let mut entries = Vec::new(alloc);
    entries.push((prefix, Entry::Via(Hops::from_vec(hops))))?;
    Table::from_entries(alloc, Entries::from_vec(entries))
}

/// A source of two routers, which drop the packets of a prefix.
fn drops(alloc: Global, prefix: Prefix) -> Result<Alike, OutOfMemory> {
    let table = table_without(alloc, prefix)?;
    Ok(Alike { routers: 2, table })
}

fn table_without(alloc: Global, prefix: Prefix) -> Result<Table, OutOfMemory>
    ensures { IfOk result (λ table. listed table ≡ (prefix, Discard) ∷ []) }
{
    let mut entries = Vec::new(alloc);
    entries.push((prefix, Entry::Discard))?;
    Table::from_entries(alloc, Entries::from_vec(entries))
}

/// Whether an answer is one hop, the router 1.
fn is_to_one(next: Next<'_>) -> bool {
    match next {
        Next::Via(hops) => hops.as_slice() == [1].as_slice(),
        Next::Discard | Next::Connected | Next::Absent => false,
    }
}

/// Whether the first router sends the packets for 10.0.0.3 to the router 1 by OSPF, and drops them by IS-IS.
fn answers(mixed: &Mixed<'_, Alike, Alike>) -> bool
    requires { 0 < length mixed.now.net }
{
    let atom = mixed.atoms().of(0x0a00_0003);
    is_to_one(mixed.hops(0, atom, Phase::Middle))
        && matches!(mixed.hops(0, atom, Phase::New), Next::Discard)
}

/// Whether mixed forwarding over two routers answers so.
fn mixes(alloc: Global, net: &Net, old: &Alike, new: &Alike) -> Result<bool, OutOfMemory> {
    if net.routers() != 2 || old.routers() != 2 || new.routers() != 2 {
        return Ok(false);
    }
    let mixed = Mixed::build(alloc, net, old, new)?;
    Ok(mixed.net().routers() == 2 && answers(&mixed))
}

/// OSPF at distance 110 wins over IS-IS until it installs nothing.
#[test]
fn a_router_answers_in_each_phase(rt: HostRuntime) -> Result<(), Fail> {
    let prefix = Prefix::new(0x0a00_0003, 32).ok_or("no prefix")?;
    let net = Net::build(rt.alloc(), bare(rt.alloc(), 2)?)?;
    let old = sends(rt.alloc(), prefix)?;
    let new = drops(rt.alloc(), prefix)?;
    let mixed = mixes(rt.alloc(), &net, &old, &new)?;
    assert!(rt; mixed);
    Ok(())
}
