ghost use Rattle.std.specs.Prelude.{◌≡◌, All, IfOk, length};
ghost use Rattle.net_model.specs.RouterNames.{names_of};
ghost use Rattle.plan_theory.specs.Ranked.{size_of};
ghost use Rattle.wave_oracle.specs.PlannedTexts.{ArePrintableWaves, IsPrintable, planned_text, ranked_waves_text};
ghost use Rattle.refutation_check.specs.TreeTexts.{NodeBelow, ranked_tree_text};

use change_orders::two_text;
use net_addr::{Bytes, OutOfMemory};
use net_model::Net;
use order_core::Waves;
use order_search::{Found, Tree};
use plan_theory::Items;
use refutation_check::{tree_text, two_tree_text};
use std::alloc::Global;
use step_scripts::waves_text;

/// The text of what was found between sound ends: an order file with its chain, of version 2 or of single changes, or a tree file.
///
/// What the search finds of a network can be printed (`plans_are_printable`), and reads back as itself
/// (`planned_texts_read_back`). The only error is want of memory.
pub fn planned_text(
    alloc: Global,
    items: Items,
    net: &Net,
    found: &Found,
) -> Result<Bytes, OutOfMemory>
    requires { IsPrintable items net.now found.now }
    ensures { IfOk result (λ text. text ≡ planned_text items (names_of net.now) found.now) }
{
    match found {
        Found::Waves { waves, chain, .. } => {
            ranked_waves_text(alloc, items, net, waves, chain.as_slice())
        }
        Found::Refuted { tree } | Found::Spent { tree } => {
            ranked_tree_text(alloc, items, net, tree)
        }
    }
}

/// The text of a wave list with its chain.
fn ranked_waves_text(
    alloc: Global,
    items: Items,
    net: &Net,
    waves: &Waves,
    chain: &[u32],
) -> Result<Bytes, OutOfMemory>
    requires { ArePrintableWaves items net.now waves.now chain.now }
    ensures { IfOk result (λ text. text ≡ ranked_waves_text items (names_of net.now) waves.now chain.now) }
{
    match items {
        Items::Routers => waves_text(alloc, net, waves, chain),
        Items::Changes => two_text(alloc, net, waves, chain),
    }
}

/// The text of a tree.
fn ranked_tree_text(
    alloc: Global,
    items: Items,
    net: &Net,
    tree: &Tree,
) -> Result<Bytes, OutOfMemory>
    requires { All (NodeBelow (size_of items (length net.now))) tree.now }
    ensures { IfOk result (λ text. text ≡ ranked_tree_text items (names_of net.now) tree.now) }
{
    match items {
        Items::Routers => tree_text(alloc, net, tree),
        Items::Changes => two_tree_text(alloc, net, tree),
    }
}
