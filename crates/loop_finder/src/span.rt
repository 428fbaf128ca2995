ghost use Rattle.std.specs.Prelude.{◌≡◌, length};

use rib_mix::Phase;

/// Two states: the phase of each router in the first and in the last. Both are the state looked at, or the ends of a wave.
#[derive(Drop)]
pub(crate) struct Span<'s> {
    /// The phases in the first state.
    pub first: &'s [Phase],
    /// The phases in the last state.
    pub last: &'s [Phase],
    ghost each: { length last.now ≡ length first.now },
}
