ghost use Rattle.std.specs.Prelude.{◌≡◌, IfOk};

use crate::OutOfMemory;
use route_tables::KeptOffers;
use std::alloc::Global;
use walk_core::Offer;

/// Room in which offers are put together before they are kept, and which is taken again for the next ones.
#[derive(Debug, Drop)]
pub(crate) struct OfferRoom {
    alloc: Global,
    /// What is put together.
    pub offers: Vec<Offer>,
}

impl OfferRoom {
    /// Room for no offers yet.
    pub fn none(alloc: Global) -> OfferRoom {
        OfferRoom {
            alloc,
            offers: Vec::new(alloc),
        }
    }

    /// What is put together, where it can stay.
    pub fn kept(&self) -> Result<KeptOffers, OutOfMemory>
        ensures { IfOk result (λ kept. kept.items ≡ self.now.offers.items) }
    {
        match self.offers.as_slice() {
            [] => Ok(KeptOffers::none()),
            [one] => Ok(KeptOffers::from_one(*one)),
            [one, other] => Ok(KeptOffers::from_two(*one, *other)),
            several => {
                let all = Vec::from_slice(self.alloc, several)?;
                Ok(KeptOffers::from_vec(all))
            }
        }
    }
}
