ghost use Rattle.std.specs.Prelude.{◌≡◌, ◌∷◌, []};

use std::marker::Model;
use std::slice;
use walk_core::Offer;

/// What is offered or announced of a prefix. Mostly it is nothing, or one or two offers.
#[derive(Debug, Drop)]
pub struct KeptOffers {
    list: OffersKept,
}

/// None, one or two, which take no memory of their own, or a list of any length.
#[derive(Debug, Drop)]
enum OffersKept {
    None,
    One(Offer),
    Two([Offer; 2]),
    Several(Vec<Offer>),
}

impl Model for KeptOffers {
    ghost use Rattle.route_tables.specs.KeptOfferLists.{KeptOfferList, listed_kept};

    ghost Value = { KeptOfferList };

    ghost view = { λ x. record { items = listed_kept x.list } };
}

impl KeptOffers {
    /// None.
    pub fn none() -> KeptOffers
        ensures { result.items ≡ [] }
    {
        KeptOffers {
            list: OffersKept::None,
        }
    }

    /// One alone.
    pub fn from_one(offer: Offer) -> KeptOffers
        ensures { result.items ≡ offer ∷ [] }
    {
        KeptOffers {
            list: OffersKept::One(offer),
        }
    }

    /// Two.
    pub fn from_two(offer: Offer, other: Offer) -> KeptOffers
        ensures { result.items ≡ offer ∷ other ∷ [] }
    {
        KeptOffers {
            list: OffersKept::Two([offer, other]),
        }
    }

    /// Those of a vector, in its order.
    pub fn from_vec(all: Vec<Offer>) -> KeptOffers
        ensures { result.items ≡ all.items }
    {
        KeptOffers {
            list: OffersKept::Several(all),
        }
    }

    /// They as a slice.
    #[inline(always)]
    pub fn as_slice(&self) -> &[Offer]
        ensures value { result.now ≡ self.now.items }
    {
        match &self.list {
            OffersKept::None => &[],
            OffersKept::One(offer) => slice::from_ref(offer),
            OffersKept::Two(two) => &two[..],
            OffersKept::Several(all) => all.as_slice(),
        }
    }
}
