ghost use Rattle.std.specs.Prelude.{◌≡◌, ◌<◌, ◌^◌, Ok, IfOk};

use crate::OutOfMemory;
use std::alloc::Global;
use std::marker::Model;
use walk_core::Offer;

/// Where a list begins among the offers of all lists, and how many it has.
#[derive(Clone, Copy, Debug)]
pub(crate) struct OfferSpan {
    start: u32,
    count: u32,
}

/// What border routers announce of each prefix into each of their areas (RFC 2328, section 12.4.3): for each prefix a list of
/// offers for each area, all of them one after another in one vector.
#[derive(Debug, Drop)]
pub(crate) struct Summaries {
    areas: usize,
    offers: Vec<Offer>,
    spans: Vec<OfferSpan>,
}

impl Model for Summaries {
    ghost use Rattle.ospf_routes.specs.steps.OfferLists.{AreOfferSpans, HeardLists, offer_lists_of};

    ghost Value = { HeardLists };

    ghost view = { λ x. record { areas = x.areas; lists = offer_lists_of x.offers.items x.spans.items } };

    ghost invariant = { λ x. AreOfferSpans x.offers.items x.spans.items };
}

impl Summaries {
    ghost use Rattle.std.specs.Prelude.{◌≡◌, ◌<◌, ◌+◌, ◌*◌, ◌++◌, ◌∷◌, [], ℕ, OnOk, Some, length};
    ghost use Rattle.ospf_routes.specs.steps.OfferLists.{heard_into};

    /// Those of no prefixes into so many areas.
    pub fn none(alloc: Global, areas: usize) -> Summaries
        ensures { result ≡ record { areas = areas; lists = [] } }
    {
        Summaries {
            areas,
            offers: Vec::new(alloc),
            spans: Vec::new(alloc),
        }
    }

    /// Adds a list behind the others.
    pub fn keep(&mut self, list: &[Offer]) -> Result<(), OutOfMemory>
        ensures { OnOk result (self.new ≡ record { areas = self.old.areas; lists = self.old.lists ++ list.now ∷ [] }) }
    {
        let start = of_32_bits(self.offers.len())?;
        let count = of_32_bits(list.len())?;
        self.spans.reserve(1)?;
        self.offers.extend_from_slice(list)?;
        self.spans.push_reserved(OfferSpan { start, count });
        Ok(())
    }

    /// Adds an empty list behind the others.
    pub fn keep_empty(&mut self) -> Result<(), OutOfMemory>
        ensures { OnOk result (self.new ≡ record { areas = self.old.areas; lists = self.old.lists ++ [] ∷ [] }) }
    {
        self.spans.push(OfferSpan { start: 0, count: 0 })?;
        Ok(())
    }

    /// Adds the list of the prefix at a place into the area at another once more, behind the others.
    pub fn keep_again(&mut self, place: usize, zone: usize) -> Result<(), OutOfMemory>
        requires { place * self.old.areas + zone < length self.old.lists }
        ensures { OnOk result (self.new ≡ record { areas = self.old.areas; lists = self.old.lists ++ heard_into self.old place zone ∷ [] }) }
    {
        let span = self.spans[place * self.areas + zone];
        self.spans.push(span)?;
        Ok(())
    }

    /// How many areas there are.
    pub fn areas(&self) -> usize
        ensures { result ≡ self.now.areas }
    {
        self.areas
    }

    /// What is announced of the prefix at a place into the area at another, where there is that area.
    pub fn into_some_area(&self, place: usize, zone: Option<usize>) -> &[Offer]
        requires { (k : ℕ) → zone ≡ Some k → place * self.now.areas + k < length self.now.lists }
        ensures { (k : ℕ) → zone ≡ Some k → result.now ≡ heard_into self.now place k }
    {
        match zone {
            Some(zone) => self.into_area(place, zone),
            None => &[],
        }
    }

    /// What is announced of the prefix at a place into the area at another.
    pub fn into_area(&self, place: usize, zone: usize) -> &[Offer]
        requires { place * self.now.areas + zone < length self.now.lists }
        ensures { result.now ≡ heard_into self.now place zone }
    {
        let span = self.spans[place * self.areas + zone];
        let start = span.start as usize;
        &self.offers[start..start + span.count as usize]
    }
}

/// The number in 32 bits, where it fits.
fn of_32_bits(number: usize) -> Result<u32, OutOfMemory>
    ensures is { IfOk result (λ n. n ≡ number) }
    ensures fits { number < 2 ^ 32 → result ≡ Ok number }
{
    match u32::try_from(number) {
        Ok(n) => Ok(n),
        Err(_) => Err(OutOfMemory),
    }
}
