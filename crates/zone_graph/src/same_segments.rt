ghost use Rattle.std.specs.Prelude.{◌≡◌, ◌↔◌, IsTrue};

use walk_core::Segment;

/// Whether two lists have the same segments, in the same order.
pub(crate) fn are_same_segments(one: &[Segment], two: &[Segment]) -> bool
    ensures { IsTrue result ↔ (one.now ≡ two.now) }
{
    if one.len() != two.len() {
        return false;
    }
    for place in 0..one.len() {
        if !one[place].is_same(&two[place]) {
            return false;
        }
    }
    true
}
