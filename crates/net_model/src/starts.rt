ghost use Rattle.std.specs.Prelude.{◌≤◌, ◌<◌, ◌↔◌, ℕ, length, IsTrue, MatchOption};
ghost use Rattle.net_model.specs.OffStarts.{IsLowestOffStart, IsOffStart, StartsOff};

use crate::{Config, MOST_DISTANCE, MOST_ROUTERS};

/// The lowest router that isn't where a migration starts.
pub(crate) fn first_off_start(configs: &[Config]) -> Option<u32>
    requires { length configs.now ≤ MOST_ROUTERS }
    ensures { MatchOption result ((u : ℕ) → StartsOff configs.now u → ⊥) (IsLowestOffStart configs.now) }
{
    for (router, config) in configs.iter().enumerate() {
        if is_off_start(config) {
            return Some(router as u32);
        }
    }
    None
}

/// Whether a router has OSPF at the greatest distance, or IS-IS at another.
pub fn is_off_start(config: &Config) -> bool
    ensures { IsTrue result ↔ IsOffStart config.now }
{
    config.process.is_some() && config.distances.ospf == MOST_DISTANCE
        || config.isis && config.distances.isis != MOST_DISTANCE
}
