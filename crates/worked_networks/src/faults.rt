ghost use Rattle.std.specs.Prelude.{◌≡◌, ◌≢◌, ◌<◌, [], ◌∷◌, length, IfOk};
ghost use Rattle.route_core.specs.Rows.{listed};
ghost use Rattle.route_core.specs.declared.entry.Entry.TheVariants.{Via};
ghost use Rattle.order_core.specs.Orders.{IsOrder};

use igp_theory::Phase;
use loop_finder::{Fault, Finder};
use net_addr::Prefix;
use net_model::Net;
use order_core::{Tag, Turn};
use rib_mix::Mixed;
use route_core::{Entries, Entry, Hops, RouteSource, Table};
use std::alloc::{AllocError as OutOfMemory, Global};
use std::marker::Model;
use std::test::Fail;
use test_networks::one_target;

/// The tables of three routers for one prefix: that of the first, and that of both others.
#[derive(Drop)]
struct Ways {
    first: Table,
    others: Table,
}

impl Model for Ways {
    ghost use Rattle.std.specs.Prelude.{◌≡◌, nat_eq, if◌then◌else◌};
    ghost use Rattle.route_core.specs.Rows.{KeptTable, listed};
    ghost use Rattle.route_core.specs.Tables.{AreTables};

    ghost Value = { KeptTable × KeptTable };

    ghost view = { λ x. (x.first, x.others) };

    ghost invariant = { λ x. AreTables 3 (λ u. if nat_eq u 0 then listed x.first else listed x.others) (λ _ _. Unit {0})
        × (x.others.prefixes ≡ x.first.prefixes) };
}

impl RouteSource for Ways {
    ghost use Rattle.std.specs.Prelude.{nat_eq, if◌then◌else◌};
    ghost use Rattle.route_core.specs.Rows.{listed};

    ghost routers = { λ _. 3 };

    ghost table = { λ s u. if nat_eq u 0 then listed s.0 else listed s.1 };

    ghost prefixes = { λ s. s.0.prefixes };

    ghost linked = { λ _ _ _. Unit {0} };

    fn routers(&self) -> u32 {
        let _ = &self.first;
        3
    }

    fn table(&self, router: u32) -> &Table {
        if router == 0 {
            &self.first
        } else {
            &self.others
        }
    }

    fn linked(&self, _u: u32, _v: u32) -> bool {
        let _ = &self.first;
        true
    }
}

fn table_to(alloc: Global, dest: Prefix, hop: u32) -> Result<Table, OutOfMemory>
    ensures entries { IfOk result (λ table. listed table ≡ (dest, Via (hop ∷ [])) ∷ []) }
    ensures prefixes { IfOk result (λ table. table.prefixes ≡ dest ∷ []) }
{
    let mut hops = Vec::new(alloc);
    hops.push(hop)?;
    let mut entries = Vec::new(alloc);
    entries.push((dest, Entry::Via(Hops::from_vec(hops))))?;
    Table::from_entries(alloc, Entries::from_vec(entries))
}

/// The first router sends the packets of a prefix to one hop, the others to another.
fn make_ways(alloc: Global, dest: Prefix, hop: u32, other: u32) -> Result<Ways, OutOfMemory>
    requires hop { hop < 3 }
    requires other { other < 3 }
{
    let first = table_to(alloc, dest, hop)?;
    let others = table_to(alloc, dest, other)?;
    Ok(Ways { first, others })
}

/// An order of three routers.
fn order(a: u32, b: u32, c: u32) -> [u32; 3]
    requires below { (a < 3) × (b < 3) × (c < 3) }
    requires apart { (a ≢ b) × (a ≢ c) × (b ≢ c) }
    ensures { IsOrder 3 result }
{
    [a, b, c]
}

/// Whether a sound state and a seamless order are told, and then an order with a loop of 0, before its switch, and 1, after it.
fn tells(finder: &mut Finder<'_, Ways, Ways>) -> bool
    requires { length finder.old.mixture.net ≡ 3 }
{
    let sound = finder.state_fault(&[Phase::Old; 3]).is_none();
    let seamless = finder.order_fault(&order(0, 1, 2)).is_none();
    let fault = finder.order_fault(&order(1, 0, 2));
    let address = 0x0a00_0003;
    sound
        && seamless
        && fault == Some((2, Fault::Loop { address }))
        && finder.ring() == TWO_TURNS.as_slice()
}

/// The turns of that loop.
const TWO_TURNS: [Turn; 2] = [
    Turn {
        router: 0,
        tag: Tag::Old,
    },
    Turn {
        router: 1,
        tag: Tag::New,
    },
];

/// Whether a finder over three routers tells that.
fn finds(alloc: Global, net: &Net, old: &Ways, new: &Ways) -> Result<bool, OutOfMemory> {
    if net.routers() != 3 || old.routers() != 3 || new.routers() != 3 {
        return Ok(false);
    }
    let mixed = Mixed::build(alloc, net, old, new)?;
    finds_in(alloc, &mixed)
}

/// Whether a finder over mixed forwarding of three routers tells that.
fn finds_in(alloc: Global, mixed: &Mixed<'_, Ways, Ways>) -> Result<bool, OutOfMemory>
    requires { length mixed.now.net ≡ 3 }
{
    let mut finder = Finder::new(alloc, mixed)?;
    Ok(tells(&mut finder))
}

/// Before the move packets go from 0 to 1 to 2, and after it from 1 to 0 to 2.
#[test]
fn a_seamless_order_and_a_loop(rt: HostRuntime) -> Result<(), Fail> {
    let dest = Prefix::new(0x0a00_0003, 32).ok_or("no prefix")?;
    let net = Net::build(rt.alloc(), one_target(rt.alloc(), 3)?)?;
    let old = make_ways(rt.alloc(), dest, 1, 2)?;
    let new = make_ways(rt.alloc(), dest, 2, 0)?;
    let found = finds(rt.alloc(), &net, &old, &new)?;
    assert!(rt; found);
    Ok(())
}
