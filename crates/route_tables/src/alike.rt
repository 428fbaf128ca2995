ghost use Rattle.std.specs.Prelude.{◌≡◌, ◌↔◌, IsTrue};
ghost use Rattle.route_tables.specs.AlikeOffers.{AreAlikeOffers, AreDearerBy, dearer_by};
ghost use Rattle.route_tables.specs.steps.Alike.{first_asks};

use walk_core::Offer;

/// Whether the offers of two lists are made at the same vertices in the same order, and what they ask differs by one
/// constant, by which either list may be the dearer one. Prefixes with such offers have the same routes.
pub fn are_alike(one: &[Offer], other: &[Offer]) -> bool
    ensures { IsTrue result ↔ AreAlikeOffers one.now other.now }
{
    let low = first_asks(one);
    let high = first_asks(other);
    if low <= high {
        are_dearer_by(one, other, high - low)
    } else {
        are_dearer_by(other, one, low - high)
    }
}

/// What the first offer asks, and 0 where there is none.
fn first_asks(offers: &[Offer]) -> u64
    ensures { result ≡ first_asks offers.now }
{
    match offers.first() {
        Some(offer) => offer.asks,
        None => 0,
    }
}

/// Whether the offers of the second list are those of the first one, each asking this much more.
fn are_dearer_by(one: &[Offer], other: &[Offer], more: u64) -> bool
    ensures { IsTrue result ↔ AreDearerBy more one.now other.now }
{
    if one.len() != other.len() {
        return false;
    }
    for (place, offer) in one.iter().enumerate() {
        if !is_dearer_by(*offer, other[place], more) {
            return false;
        }
    }
    true
}

/// Whether the second offer is the first one, asking this much more.
fn is_dearer_by(one: Offer, other: Offer, more: u64) -> bool
    ensures { IsTrue result ↔ (other ≡ dearer_by more one) }
{
    one.at == other.at && more <= other.asks && other.asks - more == one.asks
}
