ghost use Rattle.std.specs.Prelude.{◌≡◌, ◌<◌, [], All, Contains, length, slice_index};
ghost use Rattle.std.specs.Bool.{OnTrue};
ghost use Rattle.igp_theory.specs.declared.phase.Phase.{Phase};
ghost use Rattle.loop_finder.specs.Parts.{part_hops};
ghost use Rattle.loop_finder.specs.Pieces.{IsMadeOf};
ghost use Rattle.loop_finder.specs.steps.Cuts.{AreCutHops, IsCut, IsCutAt};
ghost use Rattle.loop_finder.specs.steps.Returns.{layer_in};

use crate::part::Part;
use rib_mix::Phase;

/// How a part is cut.
#[derive(Drop)]
pub(crate) struct Cut<'s, 'm> {
    /// The layers of its routers.
    pub layers: &'s [u32],
    /// For each layer the place of its piece.
    pub owners: &'s Vec<u32>,
    /// The places of its pieces.
    pub places: &'s Vec<u32>,
    /// All pieces.
    pub pieces: &'s Vec<Part<'m>>,
}

/// Whether the pieces at some places have all steps of a part by which walks return, each walk those of one piece: no step leads
/// to a higher layer, and those that stay in a layer are in the piece of the layer.
pub(crate) fn is_made_of(part: &Part<'_>, routers: u32, cut: &Cut<'_, '_>) -> bool
    requires part { length part.now.rows ≡ routers }
    requires pieces { All (λ piece. length piece.rows ≡ routers) cut.now.pieces.now.items }
    ensures { OnTrue result (IsMadeOf cut.now.pieces.now.items part.now cut.now.places.now.items) }
{
    if !are_below(cut.places, cut.pieces.len()) {
        return false;
    }
    for router in 0..routers {
        if !is_cut_at(part, router, cut) {
            return false;
        }
    }
    true
}

/// Whether some places are below another.
fn are_below(places: &Vec<u32>, end: usize) -> bool
    ensures { OnTrue result (All (λ p. p < end) places.now.items) }
{
    for place in places {
        if *place as usize >= end {
            return false;
        }
    }
    true
}

/// Whether the steps of a router lead to lower layers, or stay in its layer and are in the layer's piece.
fn is_cut_at(part: &Part<'_>, router: u32, cut: &Cut<'_, '_>) -> bool
    requires router { router < length part.now.rows }
    requires pieces { All (λ piece. router < length piece.rows) cut.now.pieces.now.items }
    ensures { OnTrue result (IsCutAt cut.now.layers.now cut.now.owners.now.items cut.now.places.now.items cut.now.pieces.now.items part.now router) }
{
    let owner = owner_of(cut.owners, layer_in(cut.layers, router));
    if is_place(cut.places, owner, cut.pieces.len()) {
        return is_cut_by(part, &cut.pieces[owner as usize], router, cut.layers);
    }
    falls(part, router, cut.layers)
}

/// Whether a place is among some, and below another.
fn is_place(places: &Vec<u32>, place: u32, end: usize) -> bool
    ensures below { OnTrue result (place < end) }
    ensures among { OnTrue result (Contains places.now.items place) }
{
    (place as usize) < end && places.contains(&place)
}

/// Whether the steps of a router lead to lower layers, or stay in its layer and are in a piece.
fn is_cut_by(part: &Part<'_>, piece: &Part<'_>, router: u32, layers: &[u32]) -> bool
    requires router { router < length part.now.rows }
    requires piece { router < length piece.now.rows }
    ensures old { OnTrue result (AreCutHops layers.now router (part_hops part.now router Phase.Old) (part_hops piece.now router Phase.Old)) }
    ensures middle { OnTrue result (AreCutHops layers.now router (part_hops part.now router Phase.Middle) (part_hops piece.now router Phase.Middle)) }
    ensures new { OnTrue result (AreCutHops layers.now router (part_hops part.now router Phase.New) (part_hops piece.now router Phase.New)) }
{
    let old = part.hops_in(router, Phase::Old);
    let middle = part.hops_in(router, Phase::Middle);
    let new = part.hops_in(router, Phase::New);
    are_cut(layers, router, old, piece.hops_in(router, Phase::Old))
        && are_cut(layers, router, middle, piece.hops_in(router, Phase::Middle))
        && are_cut(layers, router, new, piece.hops_in(router, Phase::New))
}

/// Whether the steps of a router lead to lower layers.
fn falls(part: &Part<'_>, router: u32, layers: &[u32]) -> bool
    requires router { router < length part.now.rows }
    ensures old { OnTrue result (AreCutHops layers.now router (part_hops part.now router Phase.Old) []) }
    ensures middle { OnTrue result (AreCutHops layers.now router (part_hops part.now router Phase.Middle) []) }
    ensures new { OnTrue result (AreCutHops layers.now router (part_hops part.now router Phase.New) []) }
{
    are_cut(layers, router, part.hops_in(router, Phase::Old), &[])
        && are_cut(layers, router, part.hops_in(router, Phase::Middle), &[])
        && are_cut(layers, router, part.hops_in(router, Phase::New), &[])
}

/// Whether hops of a router lead to lower layers, or stay in its layer and are kept.
fn are_cut(layers: &[u32], router: u32, hops: &[u32], kept: &[u32]) -> bool
    ensures { OnTrue result (AreCutHops layers.now router hops.now kept.now) }
{
    for hop in hops {
        if !is_cut(layers, router, *hop, kept) {
            return false;
        }
    }
    true
}

/// Whether a hop of a router leads to a lower layer, or stays in its layer and is kept.
fn is_cut(layers: &[u32], router: u32, hop: u32, kept: &[u32]) -> bool
    ensures { OnTrue result (IsCut layers.now router kept.now hop) }
{
    let layer = layer_in(layers, router);
    let next = layer_in(layers, hop);
    next < layer || next == layer && kept.contains(&hop)
}

/// The layer of a router.
fn layer_in(layers: &[u32], router: u32) -> u32
    ensures { result ≡ layer_in layers.now router }
{
    layers.get(router as usize).copied().unwrap_or(0)
}

/// The place of the piece of a layer.
fn owner_of(owners: &Vec<u32>, layer: u32) -> u32
    ensures { result ≡ slice_index owners.now.items layer }
{
    owners.get(layer as usize).copied().unwrap_or(0)
}
