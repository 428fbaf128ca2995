use crate::chains::number_of;
use crate::end_lists::EndLists;
use crate::ends::Ends;
use crate::layers::Layers;
use crate::part::Part;
use rib_mix::OutOfMemory;
use std::alloc::Global;

/// What parts are cut with. What it finds is looked at anew by `cut_check`.
#[derive(Drop)]
pub(crate) struct Cutting<'m> {
    /// Where pieces are allocated.
    pub alloc: Global,
    /// The steps of a part in both networks, while it is cut; else none.
    lists: EndLists<'m>,
    /// The layers of its routers: one for each strongly connected component.
    pub layers: Layers,
    /// For each layer the place of its piece.
    pub owners: Vec<u32>,
    /// These places.
    pub places: Vec<u32>,
}

/// The place of no piece.
const NO_PLACE: u32 = u32::MAX;

impl<'m> Cutting<'m> {
    /// What parts of so many routers are cut with.
    pub fn new(alloc: Global, routers: u32) -> Result<Cutting<'m>, OutOfMemory> {
        Ok(Cutting {
            alloc,
            lists: EndLists::new(alloc, routers)?,
            layers: Layers::new(alloc, routers)?,
            owners: vec![in alloc; NO_PLACE; routers as usize]?,
            places: Vec::new(alloc),
        })
    }

    /// Chooses the layers of a part's routers; none has a piece yet.
    pub fn choose(&mut self, part: &Part<'m>) {
        for router in part.steppers() {
            self.lists.set(*router, part.ends_of(*router));
        }
        self.layers.choose(&self.lists, part.steppers(), &[]);
        for router in part.steppers() {
            self.lists.set(*router, Ends::new(&[], &[]));
        }
        self.owners.fill(NO_PLACE);
        self.places.clear();
    }

    /// The layer of a router.
    pub fn layer_of(&self, router: u32) -> u32 {
        number_of(self.layers.numbers(), router)
    }

    /// Whether a router is in a piece of a part that isn't found yet.
    pub fn is_open(&self, part: &Part<'_>, router: u32) -> bool {
        let owner = self.owners.get(self.layer_of(router) as usize).copied();
        owner == Some(NO_PLACE) && part.stays(router, self.layers.numbers())
    }

    /// Whether a part is one piece itself, which no earlier part has.
    pub fn is_new(&self, part: &Part<'_>, all: &[Part<'_>]) -> bool {
        let steppers = part.steppers();
        let Some(first) = steppers.first().copied() else {
            return false;
        };
        let layers = self.layers.numbers();
        part.count_in(layers, self.layer_of(first)) == steppers.len()
            && part.stays(first, layers)
            && self.find(part, first, all).is_none()
    }

    /// The place of the piece of a part in which a router is, the first one of the piece.
    pub fn find(&self, part: &Part<'_>, router: u32, all: &[Part<'_>]) -> Option<u32> {
        let layers = self.layers.numbers();
        let layer = self.layer_of(router);
        let count = part.count_in(layers, layer);
        for place in 0..all.len() {
            let piece = &all[place];
            if piece.begins_with(router, count) && piece.is_piece_of(part, layers, layer) {
                return u32::try_from(place).ok();
            }
        }
        None
    }

    /// Keeps the place of the piece of a router's layer.
    pub fn put(&mut self, router: u32, place: u32) -> Result<(), OutOfMemory> {
        let layer = self.layer_of(router);
        if let Some(owner) = self.owners.get_mut(layer as usize) {
            *owner = place;
        }
        self.places.push(place)?;
        Ok(())
    }
}
