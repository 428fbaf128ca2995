ghost use Rattle.std.specs.Prelude.{◌≡◌, ◌++◌, ◌∷◌, [], ◌<◌, IfOk, IfSome, OnOk, length, replicate};
ghost use Rattle.std.specs.Bool.{OnTrue};
ghost use Rattle.prefix_atoms.specs.Nested.{AreAscendingPrefixes};
ghost use Rattle.rib_mix.specs.steps.Homes.{ArePrefixHomes, GainHomes, with_home};

use crate::subnets::Subnets;
use net_addr::Prefix;
use prefix_atoms::place_of_prefix;
use route_core::OutOfMemory;
use std::alloc::Global;
use std::marker::Model;

/// The routers at which a prefix is connected.
#[derive(Drop)]
pub(crate) struct Homes {
    routers: Vec<u32>,
}

impl Model for Homes {
    ghost use Rattle.std.specs.Prelude.{ℕ, List};

    ghost Value = { List ℕ };

    ghost view = { λ x. x.routers.items };
}

impl Homes {
    /// It is connected nowhere.
    fn none(alloc: Global) -> Homes
        ensures { result ≡ [] }
    {
        Homes {
            routers: Vec::new(alloc),
        }
    }

    /// Adds a router.
    fn add(&mut self, router: u32) -> Result<(), OutOfMemory>
        ensures { OnOk result (self.new ≡ self.old ++ router ∷ []) }
    {
        Ok(self.routers.push(router)?)
    }

    /// The routers.
    pub fn as_slice(&self) -> &[u32]
        ensures { result.now ≡ self.now }
    {
        self.routers.as_slice()
    }
}

/// Whether two lists of routers are the same.
pub(crate) fn are_same(one: &[u32], other: &[u32]) -> bool
    ensures { OnTrue result (one.now ≡ other.now) }
{
    one == other
}

/// For each of some ascending prefixes the routers at which it is connected.
pub(crate) fn homes_of(
    alloc: Global,
    prefixes: &[Prefix],
    subnets: &[Subnets],
) -> Result<Vec<Homes>, OutOfMemory>
    requires { AreAscendingPrefixes prefixes.now }
    ensures { IfOk result (λ homes. ArePrefixHomes prefixes.now subnets.now homes.items) }
{
    let Ok(routers) = u32::try_from(subnets.len()) else {
        return Err(OutOfMemory);
    };
    let mut homes = no_homes(alloc, prefixes.len())?;
    for router in 0..routers {
        add_homes(
            &mut homes,
            prefixes,
            subnets[router as usize].as_slice(),
            router,
        )?;
    }
    Ok(homes)
}

/// So many prefixes that are connected nowhere.
fn no_homes(alloc: Global, count: usize) -> Result<Vec<Homes>, OutOfMemory>
    ensures { IfOk result (λ homes. homes.items ≡ replicate count []) }
{
    let mut homes = Vec::with_capacity(alloc, count)?;
    for _ in 0..count {
        homes.push(Homes::none(alloc))?;
    }
    Ok(homes)
}

/// Adds a router to the homes of those that are connected at it.
fn add_homes(
    homes: &mut Vec<Homes>,
    prefixes: &[Prefix],
    subnets: &[Prefix],
    router: u32,
) -> Result<(), OutOfMemory>
    requires count { length homes.old.items ≡ length prefixes.now }
    requires ascending { AreAscendingPrefixes prefixes.now }
    ensures { OnOk result (GainHomes prefixes.now router subnets.now homes.old.items homes.new.items) }
{
    for subnet in subnets {
        let place = place_of_prefix(prefixes, *subnet);
        put_home(homes, place, router)?;
    }
    Ok(())
}

/// Adds a router to the homes at a place, if there is one.
fn put_home(homes: &mut Vec<Homes>, place: Option<usize>, router: u32) -> Result<(), OutOfMemory>
    requires { IfSome place (λ i. i < length homes.old.items) }
    ensures { OnOk result (homes.new.items ≡ with_home place router homes.old.items) }
{
    if let Some(place) = place {
        homes[place].add(router)?;
    }
    Ok(())
}
