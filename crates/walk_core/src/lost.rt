ghost use Rattle.std.specs.Prelude.{◌≡◌, ◌+◌, ◌<◌, ◌↔◌, IfNone, IfOk, IfSome, IsTrue, OnOk, length};
ghost use Rattle.walk_core.specs.Segments.{IsLeftOf};
ghost use Rattle.walk_core.specs.steps.Flooding.{segment_at};
ghost use Rattle.walk_core.specs.steps.Kept.{AreLostBefore, HasRun, LosesSegments};

use crate::OutOfMemory;
use crate::segment::Segment;
use std::alloc::Global;

/// A run through the segments of a list beside those of another: how many of the others were met, and at which places stand
/// segments that weren't the next of these.
#[derive(Drop)]
struct Run {
    met: usize,
    lost: Vec<usize>,
}

/// The places of the segments that went from a list, where the others are what is left of it, in its order; else none.
pub(crate) fn lost_segments(
    alloc: Global,
    before: &[Segment],
    after: &[Segment],
) -> Result<Option<Vec<usize>>, OutOfMemory>
    ensures lost { IfOk result (λ found. IfSome found (λ lost. LosesSegments before.now after.now lost.items)) }
    ensures none { IfOk result (λ found. IfNone found (IsLeftOf after.now before.now → ⊥)) }
{
    let mut run = Run {
        met: 0,
        lost: Vec::new(alloc),
    };
    for place in 0..before.len() {
        run.go_on(before, after, place)?;
    }
    if run.met < after.len() {
        return Ok(None);
    }
    Ok(Some(run.lost))
}

impl Run {
    /// Goes on to the segment at a place.
    fn go_on(
        &mut self,
        before: &[Segment],
        after: &[Segment],
        place: usize,
    ) -> Result<(), OutOfMemory>
        requires place { place < length before.now }
        requires run { HasRun place before.now after.now self.old.met self.old.lost.items }
        ensures { OnOk result (HasRun (place + 1) before.now after.now self.new.met self.new.lost.items) }
    {
        if is_next(after, self.met, &before[place]) {
            self.met += 1;
        } else {
            self.lost.push(place)?;
        }
        Ok(())
    }
}

/// Whether there is a segment at a place, and another one is the same.
fn is_next(segments: &[Segment], place: usize, segment: &Segment) -> bool
    ensures { IsTrue result ↔ ((place < length segments.now) × (segment_at segments.now place ≡ segment.now)) }
{
    match segments.get(place) {
        Some(own) => own.is_same(segment),
        None => false,
    }
}
