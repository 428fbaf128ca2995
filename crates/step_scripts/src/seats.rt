ghost use Rattle.std.specs.Prelude.{◌≡◌, ◌<◌, ◌++◌, ◌∷◌, [], ◌↔◌, ℕ, length, slice_set, Contains, Some, IfOk, IsTrue, MatchOption, OnOk};
ghost use Rattle.step_scripts.specs.steps.ReadWaves.{AreNoted, IsIn};
ghost use Rattle.step_scripts.specs.WaveFiles.{all_in, wave_at};

use std::alloc::{AllocError, Global};
use std::marker::Model;

/// The routers of some waves, wave by wave, and of each router of the network in which wave it is.
#[derive(Drop)]
pub(crate) struct Seats {
    waves: Vec<Vec<u32>>,
    places: Vec<Option<usize>>,
}

impl Model for Seats {
    ghost use Rattle.std.specs.Prelude.{List, ℕ, map};
    ghost use Rattle.step_scripts.specs.steps.ReadWaves.{KnowPlaces};

    ghost Value = { List (List ℕ) };

    ghost view = { λ seats. map (λ wave. wave.items) seats.waves.items };

    ghost invariant = { λ seats. KnowPlaces (map (λ wave. wave.items) seats.waves.items) seats.places.items };
}

impl Seats {
    /// No wave, of so many routers.
    pub fn new(alloc: Global, routers: u32) -> Result<Seats, AllocError>
        ensures { IfOk result (λ seats. seats ≡ []) }
    {
        Ok(Seats {
            waves: Vec::new(alloc),
            places: vec![in alloc; None; routers as usize]?,
        })
    }

    /// Adds a wave.
    pub fn add(&mut self, routers: Vec<u32>) -> Result<(), AllocError>
        ensures { OnOk result (self.new ≡ self.old ++ routers.items ∷ []) }
    {
        let wave = self.count();
        self.waves.reserve(1)?;
        note(&mut self.places, routers.as_slice(), wave);
        self.waves.push_reserved(routers);
        Ok(())
    }

    /// How many waves there are.
    pub fn count(&self) -> usize
        ensures { result ≡ length self.now }
    {
        self.waves.len()
    }

    /// Whether a router is in a wave.
    pub fn has(&self, wave: usize, router: u32) -> bool
        requires { wave < length self.now }
        ensures { IsTrue result ↔ Contains (wave_at self.now wave) router }
    {
        is_listed(self.waves[wave].as_slice(), router)
    }

    /// A wave that a router is in. It is looked up for the routers of the network.
    pub fn wave_with(&self, router: u32) -> Option<usize>
        ensures { MatchOption result (Contains (all_in self.now) router → ⊥) (IsIn self.now router) }
    {
        match self.places.get(router as usize) {
            Some(place) => *place,
            None => self.wave_among(router),
        }
    }

    /// The first wave that a router is in.
    fn wave_among(&self, router: u32) -> Option<usize>
        ensures { MatchOption result (Contains (all_in self.now) router → ⊥) (IsIn self.now router) }
    {
        for wave in 0..self.count() {
            if self.has(wave, router) {
                return Some(wave);
            }
        }
        None
    }
}

/// Whether the router is in the list.
pub(crate) fn is_listed(routers: &[u32], router: u32) -> bool
    ensures { IsTrue result ↔ Contains routers.now router }
{
    routers.contains(&router)
}

/// Notes of each of these routers that it is in this wave.
fn note(places: &mut Vec<Option<usize>>, routers: &[u32], wave: usize)
    ensures { AreNoted routers.now wave (record { before = places.old.items; after = places.new.items }) }
{
    for router in routers {
        note_one(places, *router, wave);
    }
}

/// Notes of a router that it is in this wave, if it is one of the network.
fn note_one(places: &mut Vec<Option<usize>>, router: u32, wave: usize)
    ensures { places.new.items ≡ slice_set places.old.items router (Some wave) }
{
    if (router as usize) < places.len() {
        places[router as usize] = Some(wave);
    }
}
