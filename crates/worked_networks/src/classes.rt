ghost use Rattle.std.specs.Prelude.{◌≡◌, [], ◌∷◌, IfOk};
ghost use Rattle.route_core.specs.Rows.{listed};
ghost use Rattle.route_core.specs.declared.entry.Entry.TheVariants.{Discard};

use net_addr::Prefix;
use net_model::Net;
use prefix_atoms::Atoms;
use route_core::{Entries, Entry, RouteSource, Table};
use std::alloc::{AllocError as OutOfMemory, Global};
use std::marker::Model;
use std::test::Fail;
use test_networks::bare;

/// A source of one router, whose table drops the packets of one prefix.
#[derive(Drop)]
struct Dropper {
    table: Table,
}

impl Model for Dropper {
    ghost use Rattle.std.specs.Prelude.{◌≢◌};
    ghost use Rattle.route_core.specs.Rows.{KeptTable, listed};
    ghost use Rattle.route_core.specs.Tables.{AreTables};

    ghost Value = { KeptTable };

    ghost view = { λ x. x.table };

    ghost invariant = { λ x. AreTables 1 (λ _. listed x.table) (λ u v. u ≢ v) };
}

impl RouteSource for Dropper {
    ghost use Rattle.std.specs.Prelude.{◌≢◌};
    ghost use Rattle.route_core.specs.Rows.{listed};

    ghost routers = { λ _. 1 };

    ghost table = { λ s _. listed s };

    ghost prefixes = { λ s. s.prefixes };

    ghost linked = { λ _ u v. u ≢ v };

    fn routers(&self) -> u32 {
        let _ = &self.table;
        1
    }

    fn table(&self, _router: u32) -> &Table {
        &self.table
    }

    fn linked(&self, u: u32, v: u32) -> bool {
        u != v
    }
}

fn make_dropper(alloc: Global, base: u32, len: u8) -> Result<Dropper, Fail> {
    let prefix = Prefix::new(base, len).ok_or("no prefix")?;
    let table = table_of(alloc, prefix)?;
    Ok(Dropper { table })
}

fn table_of(alloc: Global, prefix: Prefix) -> Result<Table, OutOfMemory>
    ensures { IfOk result (λ table. listed table ≡ (prefix, Discard) ∷ []) }
{
    let mut entries = Vec::new(alloc);
    entries.push((prefix, Entry::Discard))?;
    Table::from_entries(alloc, Entries::from_vec(entries))
}

/// The classes of 10.0.0.0/8 and of 10.0.1.128/25.
#[test]
fn nested_prefixes_make_classes(rt: HostRuntime) -> Result<(), Fail> {
    let net = Net::build(rt.alloc(), bare(rt.alloc(), 0)?)?;
    let old = make_dropper(rt.alloc(), 0x0a00_0000, 8)?;
    let new = make_dropper(rt.alloc(), 0x0a00_0180, 25)?;
    let atoms = Atoms::build(rt.alloc(), &net, &old, &new)?;
    assert_eq!(rt; atoms.count(), 3);
    let outside = atoms.of(0);
    assert_eq!(rt; atoms.sample(outside), 0);
    let outer = atoms.of(0x0a00_0000);
    assert_eq!(rt; atoms.sample(outer), 0x0a00_0000);
    let inner = atoms.of(0x0a00_0180);
    assert_eq!(rt; atoms.sample(inner), 0x0a00_0180);
    let after = atoms.of(0x0a00_0200);
    assert_eq!(rt; atoms.sample(after), 0x0a00_0000);
    assert_eq!(rt; atoms.target(after), None);
    Ok(())
}
