ghost use Rattle.std.specs.Prelude.{◌≡◌, ◌∷◌, [], ◌<◌, All, IfOk, OnOk, length};
ghost use Rattle.loop_finder.specs.steps.Parts.{AddsUnless};
ghost use Rattle.loop_finder.specs.Watches.{ArePlacesOf, IsIdle, IsWatch};

use crate::part::Part;
use rib_mix::OutOfMemory;
use std::alloc::Global;
use std::marker::Model;

/// The places of the parts that a change of a router may make unsound, ascending.
#[derive(Drop)]
pub(crate) struct Places {
    all: Vec<u32>,
}

impl Model for Places {
    ghost use Rattle.std.specs.Prelude.{List, ℕ};

    ghost Value = { List ℕ };

    ghost view = { λ x. x.all.items };
}

impl Places {
    /// The places for a router, which are gathered in some room, so that they take no more memory than they need.
    fn of_router(
        alloc: Global,
        parts: &[Part<'_>],
        router: u32,
        room: &mut Vec<u32>,
    ) -> Result<Places, OutOfMemory>
        requires { All (λ part. router < length part.rows) parts.now }
        ensures { IfOk result (ArePlacesOf parts.now router) }
    {
        let Ok(count) = u32::try_from(parts.len()) else {
            return Err(OutOfMemory);
        };
        room.clear();
        for place in 0..count {
            add_place(&parts[place as usize], router, place, room)?;
        }
        let all = Vec::from_slice(alloc, room.as_slice())?;
        Ok(Places { all })
    }

    /// One place.
    pub fn of_one(alloc: Global, place: u32) -> Result<Places, OutOfMemory>
        ensures { IfOk result (λ places. places ≡ place ∷ []) }
    {
        let mut all = Vec::new(alloc);
        all.push(place)?;
        Ok(Places { all })
    }

    /// These places.
    pub fn from_vec(all: Vec<u32>) -> Places
        ensures { result ≡ all.items }
    {
        Places { all }
    }

    /// The places.
    pub fn as_slice(&self) -> &[u32]
        ensures { result.now ≡ self.now }
    {
        self.all.as_slice()
    }
}

/// Adds the place of a part where a router isn't idle in it.
fn add_place(
    part: &Part<'_>,
    router: u32,
    place: u32,
    places: &mut Vec<u32>,
) -> Result<(), OutOfMemory>
    requires { router < length part.now.rows }
    ensures { OnOk result (AddsUnless (IsIdle part.now router) place places.old.items places.new.items) }
{
    if part.is_idle(router) {
        return Ok(());
    }
    places.push(place)?;
    Ok(())
}

/// For each router the places of the parts that a change of it may make unsound.
pub(crate) fn watch_of(
    alloc: Global,
    parts: &[Part<'_>],
    routers: u32,
) -> Result<Vec<Places>, OutOfMemory>
    requires { All (λ part. length part.rows ≡ routers) parts.now }
    ensures { IfOk result (λ watch. IsWatch parts.now routers watch.items) }
{
    let mut room = Vec::new(alloc);
    let mut watch = Vec::with_capacity(alloc, routers as usize)?;
    for router in 0..routers {
        let places = Places::of_router(alloc, parts, router, &mut room)?;
        watch.push(places)?;
    }
    Ok(watch)
}
