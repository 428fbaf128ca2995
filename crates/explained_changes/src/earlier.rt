ghost use Rattle.std.specs.Prelude.{◌≡◌, ◌+◌, ◌*◌, ◌^◌, ◌<◌, ◌≤◌, ◌++◌, ◌∷◌, [], ℕ, IfNone, IfOk, IfSome, length};
ghost use Rattle.order_core.specs.Rankings.{rank_of};
ghost use Rattle.igp_theory.specs.Timetables.{change_times};
ghost use Rattle.loop_finder.specs.Faults.{told_fault};
ghost use Rattle.loop_finder.specs.Times.{times_in};
ghost use Rattle.rib_mix.specs.Mixture.{migration_of};
ghost use Rattle.explained_waves.specs.Reasons.{one_earlier};
ghost use Rattle.explained_texts.specs.ToldItems.{TellsMore};
ghost use Rattle.explained_changes.specs.ChangeReasons.{ChangeMayBeEarlier};
ghost use Rattle.explained_changes.specs.ChangeReasonTexts.{IsChangeLine};
ghost use Rattle.explained_changes.specs.steps.Asked.{HasFaultEarlier, IsAskable, IsSafeList};

use crate::OutOfMemory;
use crate::behind::{behind_line, is_right_behind};
use crate::lines::told_line;
use explained_texts::{earlier_wave, fault_alone};
use loop_finder::{ChangeWaves, Fault, Finder};
use printed_lines::{LineBuilder, TextBuilder};
use rib_mix::Mixed;
use route_core::RouteSource;
use std::alloc::Global;
use std::marker::Model;

/// A wave list that the migration is sound throughout, of whose single changes is asked whether they may stand one wave earlier.
///
/// Seen as what the migration is over, the ranks of the changes, and the ring of the latest loop.
#[derive(Drop)]
pub(crate) struct EarlierChanges<'a, O: RouteSource, N: RouteSource> {
    mixed: &'a Mixed<'a, O, N>,
    ranks: &'a [u32],
    finder: Finder<'a, O, N>,
    /// Room for the timetable of the list with a change one wave earlier.
    times: Vec<ChangeWaves>,
}

impl<'a, O: RouteSource, N: RouteSource> Model for EarlierChanges<'a, O, N> {
    ghost use Rattle.std.specs.Prelude.{vec_len};
    ghost use Rattle.explained_texts.specs.AskedLists.{AskedList};
    ghost use Rattle.explained_changes.specs.steps.Asked.{AreChangesAsked};

    ghost Value = { AskedList O N };

    ghost view = { λ x. record { mixture = x.mixed.now; ranks = x.ranks.now; ring = x.finder.ring } };

    ghost invariant = { λ x. AreChangesAsked O.table N.table
        (record { mixture = x.mixed.now; ranks = x.ranks.now; ring = x.finder.ring }) x.finder (vec_len x.times) };
}

impl<'a, O: RouteSource, N: RouteSource> EarlierChanges<'a, O, N> {
    /// The list of these ranks.
    pub fn new(
        alloc: Global,
        mixed: &'a Mixed<'a, O, N>,
        ranks: &'a [u32],
    ) -> Result<EarlierChanges<'a, O, N>, OutOfMemory>
        requires { IsSafeList (migration_of O.table N.table mixed.now) ranks.now }
        ensures mixture { IfOk result (λ list. list.mixture ≡ mixed.now) }
        ensures ranks { IfOk result (λ list. list.ranks ≡ ranks.now) }
    {
        let finder = Finder::new(alloc, mixed)?;
        let once = ChangeWaves {
            first: 1,
            second: 1,
        };
        let times = vec![in alloc; once; mixed.net().routers() as usize]?;
        Ok(EarlierChanges {
            mixed,
            ranks,
            finder,
            times,
        })
    }

    /// The text with what is told of a change more.
    pub fn with_told(
        &mut self,
        alloc: Global,
        text: TextBuilder,
        item: u32,
    ) -> Result<TextBuilder, OutOfMemory>
        requires { item < length self.old.ranks }
        ensures mixture { self.new.mixture ≡ self.old.mixture }
        ensures ranks { self.new.ranks ≡ self.old.ranks }
        ensures told { IfOk result (TellsMore
            (IsChangeLine (migration_of O.table N.table self.old.mixture) self.old.ranks) item text) }
    {
        if self.ranks[item as usize] == 0 {
            return Ok(text);
        }
        let line = self.reason_line(alloc, item)?;
        text.line(line)
    }

    /// The line of a change behind the first wave.
    fn reason_line(&mut self, alloc: Global, item: u32) -> Result<LineBuilder, OutOfMemory>
        requires item { item < length self.old.ranks }
        requires later { 0 < rank_of self.old.ranks item }
        ensures mixture { self.new.mixture ≡ self.old.mixture }
        ensures ranks { self.new.ranks ≡ self.old.ranks }
        ensures told { IfOk result (λ line.
            IsChangeLine (migration_of O.table N.table self.old.mixture) self.old.ranks item (line ++ 10 ∷ [])) }
    {
        if is_right_behind(self.ranks, item) {
            return behind_line(alloc, self.mixed, self.ranks, item);
        }
        let found = self.earlier_fault(item);
        told_line(
            alloc,
            self.mixed,
            self.ranks,
            (item, found),
            self.finder.ring(),
        )
    }

    /// The fault of the list with a change one wave earlier; none where the migration is sound throughout that.
    fn earlier_fault(&mut self, item: u32) -> Option<Fault>
        requires { IsAskable self.old.ranks item }
        ensures mixture { self.new.mixture ≡ self.old.mixture }
        ensures ranks { self.new.ranks ≡ self.old.ranks }
        ensures free { IfNone result (ChangeMayBeEarlier (migration_of O.table N.table self.old.mixture) self.old.ranks item) }
        ensures kept { IfSome result (λ fault. HasFaultEarlier (migration_of O.table N.table self.old.mixture) self.old.ranks item
            (told_fault fault self.new.ring)) }
    {
        earlier_waves(self.ranks, item, &mut self.times);
        let found = self.finder.times_fault(self.times.as_slice());
        fault_alone(found)
    }
}

/// The timetable of ranked changes, one of which stands one wave earlier.
fn earlier_waves(ranks: &[u32], earlier: u32, times: &mut [ChangeWaves])
    requires many { 2 * length times.old ≡ length ranks.now }
    requires few { length ranks.now ≤ 2000 }
    requires waves { (k : ℕ) → rank_of ranks.now k + 1 < 2 ^ 32 }
    requires later { 0 < rank_of ranks.now earlier }
    requires item { earlier < length ranks.now }
    ensures { times_in times.new ≡ change_times (one_earlier ranks.now earlier) }
{
    for router in 0..times.len() {
        let first = earlier_wave(ranks, earlier, router + router);
        let second = earlier_wave(ranks, earlier, router + router + 1);
        times[router] = ChangeWaves { first, second };
    }
}
