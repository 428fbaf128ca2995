ghost use Rattle.std.specs.Prelude.{◌≡◌, ◌<◌, IfOk, length};
ghost use Rattle.net_model.specs.RouterNames.{names_of};
ghost use Rattle.igp_theory.specs.Migrations.{listed_migration};
ghost use Rattle.shown_tables.specs.TablesTexts.{IsTablesText};
ghost use Rattle.shown_tables.specs.declared.igp.Igp.TheVariants.{Isis, Ospf};
ghost use Rattle.shown_tables.specs.steps.Places.{AreInPrefixOrder};
ghost use Rattle.shown_tables.specs.steps.Shown.{IsOfRouter, IsOfShownTable, Shows};

use crate::entries::{Owner, add_table};
use crate::igp::Igp;
use crate::places::{Placed, prefix_order};
use net_addr::Bytes;
use net_model::Net;
use route_core::{OutOfMemory, RouteSource};
use std::alloc::Global;

/// The text of the entries of both tables of every router of the network: routers ascending, the old table before the new one,
/// prefixes ascending.
pub fn tables_text<O: RouteSource, N: RouteSource>(
    alloc: Global,
    net: &Net,
    old: &O,
    new: &N,
) -> Result<Bytes, OutOfMemory>
    requires old { O.routers old.now ≡ length net.now }
    requires new { N.routers new.now ≡ length net.now }
    ensures { IfOk result (IsTablesText (listed_migration net.now (O.table old.now) (N.table new.now))) }
{
    let olds = prefixes_in_order(alloc, Igp::Ospf, old)?;
    let news = prefixes_in_order(alloc, Igp::Isis, new)?;
    let both = Both {
        old: Ordered {
            source: old,
            places: olds.as_slice(),
        },
        new: Ordered {
            source: new,
            places: news.as_slice(),
        },
    };
    let mut text = Vec::new(alloc);
    for router in 0..net.routers() {
        add_router(&mut text, net, &both, router)?;
    }
    Ok(Bytes::from_vec(text))
}

/// A source of tables, and the prefixes of these in their order.
#[derive(Drop)]
struct Ordered<'a, S: RouteSource> {
    source: &'a S,
    places: &'a [Placed],
}

/// Two sources of tables.
#[derive(Drop)]
struct Both<'a, O: RouteSource, N: RouteSource> {
    old: Ordered<'a, O>,
    new: Ordered<'a, N>,
}

/// The prefixes of a source's tables, ascending. All its tables keep the same.
fn prefixes_in_order<S: RouteSource>(
    alloc: Global,
    igp: Igp,
    source: &S,
) -> Result<Vec<Placed>, OutOfMemory>
    ensures { IfOk result (λ all. 0 < S.routers source.now → AreInPrefixOrder igp (S.prefixes source.now) all.items) }
{
    if source.routers() == 0 {
        return Ok(Vec::new(alloc));
    }
    Ok(prefix_order(alloc, igp, source.table(0).parts().prefixes)?)
}

/// Adds the entries of a router's tables to a text.
fn add_router<O: RouteSource, N: RouteSource>(
    text: &mut Vec<u8>,
    net: &Net,
    both: &Both<'_, O, N>,
    router: u32,
) -> Result<(), OutOfMemory>
    requires router { router < length net.now }
    requires old { O.routers both.now.old.source.now ≡ length net.now }
    requires new { N.routers both.now.new.source.now ≡ length net.now }
    requires olds { AreInPrefixOrder Ospf (O.prefixes both.now.old.source.now) both.now.old.places.now }
    requires news { AreInPrefixOrder Isis (N.prefixes both.now.new.source.now) both.now.new.places.now }
    ensures { IfOk result (λ _. Shows (names_of net.now)
        (IsOfRouter (listed_migration net.now (O.table both.entry.now.old.source.now) (N.table both.entry.now.new.source.now)) router)
        text.old.items text.new.items) }
{
    let igp = Igp::Ospf;
    add_source(text, Owner { net, router, igp }, &both.old)?;
    let igp = Igp::Isis;
    add_source(text, Owner { net, router, igp }, &both.new)?;
    Ok(())
}

/// Adds the entries of the owner's table of a source to a text.
fn add_source<S: RouteSource>(
    text: &mut Vec<u8>,
    owner: Owner<'_>,
    from: &Ordered<'_, S>,
) -> Result<(), OutOfMemory>
    requires router { owner.router < length owner.net.now }
    requires routers { S.routers from.now.source.now ≡ length owner.net.now }
    requires places { AreInPrefixOrder owner.igp (S.prefixes from.now.source.now) from.now.places.now }
    ensures { IfOk result (λ _. Shows (names_of owner.entry.net.now)
        (IsOfShownTable owner.entry.router owner.entry.igp (S.table from.entry.now.source.now owner.entry.router))
        text.old.items text.new.items) }
{
    let _ = from.source.routers();
    add_table(text, owner, from.places, from.source.table(owner.router))
}
