ghost use Rattle.std.specs.Prelude.{MatchOption};
ghost use Rattle.isis_routes.specs.steps.Asked.{HasNoneBefore, HasNoneIn, IsAway, IsIsisQuestion, LeadAsked};

use crate::asked::Asked;
use crate::level::Level;
use walk_core::Offer;

/// The offers whose best is a router's route in a level, where it runs that. In level 2 other routers' announcements give it:
/// a router that isn't connected to the prefix and has no level 1 route for it announces nothing of it.
#[inline(always)]
pub(crate) fn leading_offers(asked: Asked<'_>, level: Level) -> Option<&[Offer]>
    requires asked { IsIsisQuestion asked }
    requires away { IsAway asked }
    requires first { HasNoneBefore asked level }
    ensures { MatchOption result (HasNoneIn asked.entry level) (λ offers. LeadAsked asked.entry level offers.now) }
{
    let (domain, destination) = (asked.domain, asked.destination);
    match level {
        Level::One => {
            if domain.runs_level_one(asked.router) {
                Some(destination.one.offers.as_slice())
            } else {
                None
            }
        }
        Level::Two => {
            if domain.runs_level_two(asked.router) {
                Some(destination.two.as_slice())
            } else {
                None
            }
        }
    }
}
