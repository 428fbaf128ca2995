ghost use Rattle.std.specs.Prelude.{◌≡◌, ℕ, List, All, IfOk, OnOk, length};
ghost use Rattle.loop_finder.specs.Parts.{ClassPart};
ghost use Rattle.loop_finder.specs.Pieces.{ArePieces, IsMadeOf};

use crate::cut_check::{Cut, is_made_of};
use crate::cutting::Cutting;
use crate::part::Part;
use crate::watch::{Places, watch_of};
use rib_mix::OutOfMemory;
use std::alloc::Global;

/// The pieces of parts: the strongly connected components of their steps, each once. A walk that returns stays in one.
#[derive(Drop)]
pub(crate) struct Pieces<'m> {
    /// The pieces.
    pub all: Vec<Part<'m>>,
    /// For each part the places of its pieces.
    pub made: Vec<Places>,
    /// For each router the places of the pieces that a change of it concerns.
    pub watch: Vec<Places>,
}

/// The pieces of parts of so many routers.
///
/// Takes time of the parts' steps, and for each piece of a part that of the pieces found before. 2^32 pieces or more give
/// `OutOfMemory`.
pub(crate) fn pieces_of<'m>(
    alloc: Global,
    parts: &[Part<'m>],
    routers: u32,
) -> Result<Pieces<'m>, OutOfMemory>
    requires { All (λ part. length part.rows ≡ routers) parts.now }
    ensures { IfOk result (ArePieces parts.now routers) }
{
    let mut cutting = Cutting::new(alloc, routers)?;
    let mut all = Vec::new(alloc);
    let mut made = Vec::with_capacity(alloc, parts.len())?;
    for place in 0..parts.len() {
        let places = cut(&parts[place], routers, &mut cutting, &mut all)?;
        made.push(places)?;
    }
    let watch = watch_of(alloc, all.as_slice(), routers)?;
    Ok(Pieces { all, made, watch })
}

/// Cuts a part: the places of its pieces, which are added where no earlier part has them. A part that its layers don't cut is
/// a piece itself.
fn cut<'m>(
    part: &Part<'m>,
    routers: u32,
    cutting: &mut Cutting<'m>,
    all: &mut Vec<Part<'m>>,
) -> Result<Places, OutOfMemory>
    requires part { length part.now.rows ≡ routers }
    requires all { All (λ piece. length piece.rows ≡ routers) all.old.items }
    ensures all { IfOk result (λ places. All (λ piece. length piece.rows ≡ routers) all.new.items) }
    ensures made { IfOk result (IsMadeOf all.new.items part.now) }
    ensures kept { IfOk result (λ places. (other : ClassPart) (others : List ℕ) →
        IsMadeOf all.old.items other others → IsMadeOf all.new.items other others) }
{
    cutting.choose(part);
    if cutting.is_new(part, all.as_slice()) {
        return add_whole(cutting.alloc, part, routers, all);
    }
    add_pieces(part, routers, cutting, all)?;
    let places = Vec::from_slice(cutting.alloc, cutting.places.as_slice())?;
    let cut = Cut {
        layers: cutting.layers.numbers(),
        owners: &cutting.owners,
        places: &places,
        pieces: all,
    };
    if is_made_of(part, routers, &cut) {
        return Ok(Places::from_vec(places));
    }
    add_whole(cutting.alloc, part, routers, all)
}

/// Adds the pieces of a part that no earlier part has.
fn add_pieces<'m>(
    part: &Part<'m>,
    routers: u32,
    cutting: &mut Cutting<'m>,
    all: &mut Vec<Part<'m>>,
) -> Result<(), OutOfMemory>
    requires part { length part.now.rows ≡ routers }
    requires all { All (λ piece. length piece.rows ≡ routers) all.old.items }
    ensures all { OnOk result (All (λ piece. length piece.rows ≡ routers) all.new.items) }
    ensures kept { OnOk result ((other : ClassPart) (others : List ℕ) →
        IsMadeOf all.old.items other others → IsMadeOf all.new.items other others) }
{
    for router in part.steppers() {
        add_piece(part, routers, *router, cutting, all)?;
    }
    Ok(())
}

/// Adds the piece of a part in which a router is, where it's in one that isn't found yet for the part, nor for an earlier one.
fn add_piece<'m>(
    part: &Part<'m>,
    routers: u32,
    router: u32,
    cutting: &mut Cutting<'m>,
    all: &mut Vec<Part<'m>>,
) -> Result<(), OutOfMemory>
    requires part { length part.now.rows ≡ routers }
    requires all { All (λ piece. length piece.rows ≡ routers) all.old.items }
    ensures all { OnOk result (All (λ piece. length piece.rows ≡ routers) all.new.items) }
    ensures kept { OnOk result ((other : ClassPart) (others : List ℕ) →
        IsMadeOf all.old.items other others → IsMadeOf all.new.items other others) }
{
    if !cutting.is_open(part, router) {
        return Ok(());
    }
    if let Some(place) = cutting.find(part, router, all.as_slice()) {
        return cutting.put(router, place);
    }
    let Ok(place) = u32::try_from(all.len()) else {
        return Err(OutOfMemory);
    };
    cutting.put(router, place)?;
    let layers = cutting.layers.numbers();
    let piece = part.piece(cutting.alloc, routers, layers, cutting.layer_of(router))?;
    all.push(piece)?;
    Ok(())
}

/// Adds a part as a piece: its place alone.
fn add_whole<'m>(
    alloc: Global,
    part: &Part<'m>,
    routers: u32,
    all: &mut Vec<Part<'m>>,
) -> Result<Places, OutOfMemory>
    requires part { length part.now.rows ≡ routers }
    requires all { All (λ piece. length piece.rows ≡ routers) all.old.items }
    ensures all { IfOk result (λ places. All (λ piece. length piece.rows ≡ routers) all.new.items) }
    ensures made { IfOk result (IsMadeOf all.new.items part.now) }
    ensures kept { IfOk result (λ places. (other : ClassPart) (others : List ℕ) →
        IsMadeOf all.old.items other others → IsMadeOf all.new.items other others) }
{
    let Ok(place) = u32::try_from(all.len()) else {
        return Err(OutOfMemory);
    };
    let places = Places::of_one(alloc, place)?;
    let piece = part.piece(alloc, routers, &[], 0)?;
    all.push(piece)?;
    Ok(places)
}
