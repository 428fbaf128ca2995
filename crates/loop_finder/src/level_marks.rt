ghost use Rattle.std.specs.Prelude.{◌≡◌, ◌+◌, ◌<◌, ◌≤◌, ℕ, All, length};
ghost use Rattle.std.specs.Bool.{OnFalse, OnTrue};
ghost use Rattle.order_core.specs.Marks.{IsMarked};
ghost use Rattle.loop_finder.specs.steps.Ends.{EndStep};
ghost use Rattle.loop_finder.specs.steps.Returns.{HasLayer, IsLayerAbove, IsLevelled, MarksAgain, layer_in};

use crate::chains::NO_LAYER;
use crate::end_lists::EndLists;
use crate::ends::Ends;
use crate::layers::Layers;
use crate::live::mark_all;

/// Marks the routers to which a walk over the steps of both networks may return, where it's known which were marked before the
/// steps of some routers changed: those of strongly connected parts, by the layers of the routers to which steps lead from
/// these, and from the marked ones too where one of these is marked. The others keep their marks. All routers are marked where
/// some step leads to a higher layer.
pub(crate) fn mark_returns(
    lists: &EndLists<'_>,
    changed: &[u32],
    layers: &mut Layers,
    marks: &mut [bool],
)
    requires olds { length marks.old ≡ length lists.now.olds }
    requires news { length marks.old ≡ length lists.now.news }
    ensures { MarksAgain (EndStep lists.now) changed.now marks.old marks.new }
{
    layers.choose(lists, changed, marks);
    if !mark_level(lists, changed, layers.numbers(), marks) {
        mark_all(marks);
    }
}

/// Marks the routers that a step leads from and that stays in the layer; false where some step leads higher, or a router that
/// changed has no layer.
fn mark_level(lists: &EndLists<'_>, changed: &[u32], layers: &[u32], marks: &mut [bool]) -> bool
    requires olds { length marks.old ≡ length lists.now.olds }
    requires news { length marks.old ≡ length lists.now.news }
    ensures returns { OnTrue result (MarksAgain (EndStep lists.now) changed.now marks.old marks.new) }
    ensures inside { (u h : ℕ) → EndStep lists.now u h → u < length marks.new }
{
    if layers.len() < marks.len() {
        return false;
    }
    for router in 0..marks.len() {
        if !mark_router(lists, layers, router, marks) {
            return false;
        }
    }
    have_layers(layers, changed)
}

/// Marks a router that has a layer where a step leads from it and stays in the layer; false where some step leads higher.
fn mark_router(lists: &EndLists<'_>, layers: &[u32], router: usize, marks: &mut [bool]) -> bool
    requires router { router < length lists.now.olds }
    requires layer { router < length layers.now }
    requires many { length marks.old ≡ length lists.now.olds }
    ensures level { OnTrue result (IsLevelled (EndStep lists.now) layers.now marks.new router) }
    ensures kept { (u : ℕ) → (u ≡ router → ¬ HasLayer layers.now u) → IsMarked marks.old u → IsMarked marks.new u }
{
    let layer = layers[router];
    if layer == NO_LAYER {
        return true;
    }
    let above = above_hops(lists, layers, router);
    marks[router] = is_over(above, u64::from(layer));
    above <= u64::from(layer) + 1
}

/// Whether some routers have layers.
fn have_layers(layers: &[u32], routers: &[u32]) -> bool
    ensures { OnTrue result (All (HasLayer layers.now) routers.now) }
{
    for router in routers {
        if layer_in(layers, *router as usize) == NO_LAYER {
            return false;
        }
    }
    true
}

/// Whether a layer is over another.
fn is_over(above: u64, layer: u64) -> bool
    ensures { OnFalse result (above ≤ layer) }
{
    above > layer
}

/// The layer above those of a router's hops, and the lowest where it has none.
fn above_hops(lists: &EndLists<'_>, layers: &[u32], router: usize) -> u64
    requires { router < length lists.now.olds }
    ensures { (h : ℕ) → EndStep lists.now router h → layer_in layers.now h < result }
{
    match lists.at(router) {
        Ends::One(hop) => above_one(layers, *hop),
        Ends::Two(old, new) => above_one(layers, *old).max(above_one(layers, *new)),
        Ends::Each(olds, news) => above_both(olds, news, layers),
    }
}

/// The layer above that of a router.
fn above_one(layers: &[u32], router: u32) -> u64
    ensures { result ≡ layer_in layers.now router + 1 }
{
    u64::from(layer_in(layers, router as usize)) + 1
}

/// The layer above those of some routers and of others.
#[inline(never)]
fn above_both(routers: &[u32], others: &[u32], layers: &[u32]) -> u64
    ensures routers { IsLayerAbove layers.now routers.now result }
    ensures others { IsLayerAbove layers.now others.now result }
{
    above(routers, layers).max(above(others, layers))
}

/// The layer above those of some routers, and the lowest of none.
fn above(routers: &[u32], layers: &[u32]) -> u64
    ensures { IsLayerAbove layers.now routers.now result }
{
    let mut above = 0;
    for router in routers {
        above = above.max(above_one(layers, *router));
    }
    above
}

/// The layer of a router.
fn layer_in(layers: &[u32], router: usize) -> u32
    ensures { result ≡ layer_in layers.now router }
{
    layers.get(router).copied().unwrap_or(0)
}
