ghost use Rattle.std.specs.Prelude.{◌≡◌, ◌<◌, [], ◌∷◌, IfOk};
ghost use Rattle.route_core.specs.Rows.{listed};
ghost use Rattle.route_core.specs.declared.entry.Entry.TheVariants.{Via};

use net_addr::Prefix;
use route_core::{Entries, Entry, Hops, RouteSource, Table};
use std::alloc::{AllocError, Global};
use std::marker::Model;
use std::test::Fail;

/// Two routers with a link between them, each of which sends all packets to the other.
#[derive(Drop)]
struct Pair {
    zero: Table,
    one: Table,
}

impl Model for Pair {
    ghost use Rattle.std.specs.Prelude.{◌≡◌, ◌≢◌, nat_eq, if◌then◌else◌};
    ghost use Rattle.route_core.specs.Rows.{KeptTable, listed};
    ghost use Rattle.route_core.specs.Tables.{AreTables};

    ghost Value = { KeptTable × KeptTable };

    ghost view = { λ x. (x.zero, x.one) };

    ghost invariant = { λ x. AreTables 2 (λ u. if nat_eq u 0 then listed x.zero else listed x.one) (λ u v. u ≢ v)
        × (x.one.prefixes ≡ x.zero.prefixes) };
}

impl RouteSource for Pair {
    ghost use Rattle.std.specs.Prelude.{◌≢◌, nat_eq, if◌then◌else◌};
    ghost use Rattle.route_core.specs.Rows.{listed};

    ghost routers = { λ _. 2 };

    ghost table = { λ s u. if nat_eq u 0 then listed s.0 else listed s.1 };

    ghost prefixes = { λ s. s.0.prefixes };

    ghost linked = { λ _ u v. u ≢ v };

    fn routers(&self) -> u32 {
        let _ = &self.zero;
        2
    }

    fn table(&self, router: u32) -> &Table {
        if router == 0 { &self.zero } else { &self.one }
    }

    fn linked(&self, u: u32, v: u32) -> bool {
        u != v
    }
}

fn to_router(alloc: Global, all: Prefix, router: u32) -> Result<Table, AllocError>
    ensures entries { IfOk result (λ table. listed table ≡ (all, Via (router ∷ [])) ∷ []) }
    ensures prefixes { IfOk result (λ table. table.prefixes ≡ all ∷ []) }
{
    let mut hops = Vec::new(alloc);
    hops.push(router)?;
    let mut entries = Vec::new(alloc);
    entries.push((all, Entry::Via(Hops::from_vec(hops))))?;
    Table::from_entries(alloc, Entries::from_vec(entries))
}

fn make_pair(alloc: Global, all: Prefix) -> Result<Pair, AllocError> {
    let zero = to_router(alloc, all, 1)?;
    let one = to_router(alloc, all, 0)?;
    Ok(Pair { zero, one })
}

/// The only entry of a router, where it is the longest match of the address.
fn only_entry<S: RouteSource>(source: &S, router: u32, a: u32) -> Option<(Prefix, &Entry)>
    requires { router < S.routers source.now }
{
    let table = source.table(router);
    let place = table.longest(a)?;
    Some((table.dest(place), table.entry(place)))
}

#[test]
fn a_source_answers(rt: HostRuntime) -> Result<(), Fail> {
    let all = Prefix::new(0, 0).ok_or("no prefix")?;
    let source = make_pair(rt.alloc(), all)?;
    assert_eq!(rt; source.routers(), 2);
    assert!(rt; source.linked(0, 1));
    assert_eq!(rt; source.table(1).len(), 1);
    let found = only_entry(&source, 1, 7);
    let by_zero =
        matches!(found, Some((dest, Entry::Via(hops))) if dest == all && hops.as_slice() == [0].as_slice());
    assert!(rt; by_zero);
    Ok(())
}
