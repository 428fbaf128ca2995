ghost use Rattle.std.specs.Prelude.{◌≡◌, ◌∷◌, []};

use std::marker::Model;
use std::slice;

/// The routers that a prefix is connected at. Mostly they are one or two.
#[derive(Debug, Drop)]
pub struct Homes {
    list: HomeNumbers,
}

/// One or two, which take no memory of their own, or a list of any length.
#[derive(Debug, Drop)]
enum HomeNumbers {
    One(u32),
    Two([u32; 2]),
    Several(Vec<u32>),
}

impl Model for Homes {
    ghost use Rattle.route_tables.specs.HomeLists.{HomeList, listed_homes};

    ghost Value = { HomeList };

    ghost view = { λ x. record { items = listed_homes x.list } };
}

impl Homes {
    /// One alone.
    pub fn from_one(router: u32) -> Homes
        ensures { result.items ≡ router ∷ [] }
    {
        Homes {
            list: HomeNumbers::One(router),
        }
    }

    /// Two.
    pub fn from_two(router: u32, other: u32) -> Homes
        ensures { result.items ≡ router ∷ other ∷ [] }
    {
        Homes {
            list: HomeNumbers::Two([router, other]),
        }
    }

    /// Those of a vector, in its order.
    pub fn from_vec(all: Vec<u32>) -> Homes
        ensures { result.items ≡ all.items }
    {
        Homes {
            list: HomeNumbers::Several(all),
        }
    }

    /// They as a slice.
    #[inline(always)]
    pub fn as_slice(&self) -> &[u32]
        ensures value { result.now ≡ self.now.items }
    {
        match &self.list {
            HomeNumbers::One(router) => slice::from_ref(router),
            HomeNumbers::Two(two) => &two[..],
            HomeNumbers::Several(all) => all.as_slice(),
        }
    }
}
