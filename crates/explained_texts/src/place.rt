ghost use Rattle.std.specs.Prelude.{◌≡◌, ◌+◌, ◌≤◌, ℕ, take};
ghost use Rattle.igp_theory.specs.Phases.{all_old};
ghost use Rattle.igp_theory.specs.States.{changes_of, changes_on, phase_after, state_of};
ghost use Rattle.igp_theory.specs.Timetables.{change_times, router_times, state_before};
ghost use Rattle.order_core.specs.Rankings.{rank_of};
ghost use Rattle.explained_texts.specs.FaultPlaces.{span_of};
ghost use Rattle.explained_texts.specs.WayTexts.{told_phase};

use order_core::Tag;
use rib_mix::Phase;

/// Where a fault was found.
#[derive(Clone, Copy, Debug)]
pub enum FaultPlace<'a> {
    /// In a state of an order of the routers.
    State {
        /// The order.
        order: &'a [u32],
        /// How many changes were made.
        number: u32,
    },
    /// In the states of a wave of routers.
    Wave {
        /// The rank of each router.
        ranks: &'a [u32],
        /// The number of the wave, counted from 1.
        number: u32,
    },
    /// In the states of a wave of single changes.
    ChangeWave {
        /// The rank of each change: of the first one of router u at 2u, of the second one at 2u + 1.
        ranks: &'a [u32],
        /// The number of the wave, counted from 1.
        number: u32,
    },
}

impl FaultPlace<'_> {
    /// The phase in which a router begins there.
    pub(crate) fn first(self, router: u32) -> Phase
        ensures { result ≡ (span_of self.entry).first router }
    {
        match self {
            FaultPlace::State { order, number } => order_phase(order, number, router),
            FaultPlace::Wave { ranks, number } => wave_phase(ranks, u64::from(number), router),
            FaultPlace::ChangeWave { ranks, number } => {
                change_phase(ranks, u64::from(number), router)
            }
        }
    }

    /// The phase in which it ends there.
    pub(crate) fn last(self, router: u32) -> Phase
        ensures { result ≡ (span_of self.entry).last router }
    {
        match self {
            FaultPlace::State { order, number } => order_phase(order, number, router),
            FaultPlace::Wave { ranks, number } => wave_phase(ranks, u64::from(number) + 1, router),
            FaultPlace::ChangeWave { ranks, number } => {
                change_phase(ranks, u64::from(number) + 1, router)
            }
        }
    }

    /// The phase that is told of a router of a ring, by its tag.
    pub(crate) fn told(self, tag: Tag, router: u32) -> Phase
        ensures { result ≡ told_phase (span_of self.entry) tag router }
    {
        match tag {
            Tag::Old | Tag::Both => self.first(router),
            Tag::New => self.last(router),
        }
    }
}

/// The phase of a router after so many changes of an order.
fn order_phase(order: &[u32], number: u32, router: u32) -> Phase
    ensures { result ≡ state_of order.now number router }
{
    let mut made = 0;
    for change in 0..number {
        made += made_by(order, change, router);
    }
    phase_after(made)
}

/// How many changes one change of an order makes on a router: one, or none.
fn made_by(order: &[u32], change: u32, router: u32) -> u32
    ensures few { result ≤ 1 }
    ensures more { changes_on router (take (change + 1) (changes_of order.now))
        ≡ changes_on router (take change (changes_of order.now)) + result }
{
    match order.get(change as usize / 2) {
        Some(changed) => { if *changed == router { 1 } else { 0 } }
        None => 0,
    }
}

/// The phase of a router after this many of its changes.
fn phase_after(made: u32) -> Phase
    ensures { result ≡ phase_after made }
{
    match made {
        0 => Phase::Old,
        1 => Phase::Middle,
        _ => Phase::New,
    }
}

/// The phase in which a ranked router begins a wave.
fn wave_phase(ranks: &[u32], wave: u64, router: u32) -> Phase
    ensures { result ≡ state_before (router_times all_old ranks.now) wave router }
{
    if wave_at(ranks, router as usize) < wave {
        Phase::New
    } else {
        Phase::Old
    }
}

/// The phase in which the router of ranked single changes begins a wave.
fn change_phase(ranks: &[u32], wave: u64, router: u32) -> Phase
    ensures { result ≡ state_before (change_times ranks.now) wave router }
{
    let number = router as usize + router as usize;
    if wave_at(ranks, number + 1) < wave {
        Phase::New
    } else if wave_at(ranks, number) < wave {
        Phase::Middle
    } else {
        Phase::Old
    }
}

/// The wave of a router or of a change, counted from 1.
fn wave_at(ranks: &[u32], number: usize) -> u64
    ensures { result ≡ rank_of ranks.now number + 1 }
{
    match ranks.get(number) {
        Some(rank) => u64::from(*rank) + 1,
        None => 1,
    }
}
