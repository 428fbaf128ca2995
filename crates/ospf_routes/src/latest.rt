use crate::OutOfMemory;
use std::alloc::Global;
use std::marker::Model;
use walk_core::Offer;

/// For each of so many numbers the place of the latest prefix that was noted for it.
#[derive(Debug, Drop)]
pub(crate) struct Latest {
    places: Vec<Option<usize>>,
}

impl Model for Latest {
    ghost use Rattle.std.specs.Prelude.{ℕ, List, Option};

    ghost Value = { List (Option ℕ) };

    ghost view = { λ x. x.places.items };
}

impl Latest {
    ghost use Rattle.std.specs.Prelude.{◌≡◌, ℕ, length, slice_index_or, slice_set, None, Some, IfOk};

    /// None yet for any of so many numbers.
    pub fn none(alloc: Global, count: usize) -> Result<Latest, OutOfMemory>
        ensures none { IfOk result (λ latest. (n : ℕ) → slice_index_or latest n None ≡ None) }
        ensures count { IfOk result (λ latest. length latest ≡ count) }
    {
        let places = vec![in alloc; None; count]?;
        Ok(Latest { places })
    }

    /// The place that was noted for a number, where one was.
    pub fn noted(&self, number: usize) -> Option<usize> {
        self.places.get(number).copied()?
    }

    /// The place that was noted for a number below the count, where one was. From now on it is this one.
    pub fn replace(&mut self, number: usize, place: usize) -> Option<usize>
        ensures earlier { result ≡ slice_index_or self.old number None }
        ensures noted { self.new ≡ slice_set self.old number (Some place) }
    {
        if number >= self.places.len() {
            return None;
        }
        let earlier = self.places[number];
        self.places[number] = Some(place);
        earlier
    }
}

/// The number of the router that makes the first of some announcements and one, or 0 where there is none.
pub(crate) fn number_of_announcer(announced: &[Offer]) -> usize {
    match announced.first() {
        Some(first) => 1 + first.at as usize,
        None => 0,
    }
}
