ghost use Rattle.std.specs.Prelude.{◌≡◌};
ghost use Rattle.used_routes.specs.steps.Found.{better_route, comes_first};

use crate::used::UsedRoute;

/// The better of two routes: the longer one, and of two as long that of lower distance.
pub(crate) fn better(one: Option<UsedRoute>, other: Option<UsedRoute>) -> Option<UsedRoute>
    ensures { result ≡ better_route one other }
{
    match (one, other) {
        (Some(first), Some(second)) => Some(if comes_first(first, second) {
            first
        } else {
            second
        }),
        (None, other) => other,
        (one, None) => one,
    }
}

/// Whether the first of two routes is longer, or as long and of no higher distance.
fn comes_first(one: UsedRoute, other: UsedRoute) -> bool
    ensures { result ≡ comes_first one other }
{
    other.prefix.len() < one.prefix.len()
        || one.prefix.len() == other.prefix.len() && one.distance <= other.distance
}
