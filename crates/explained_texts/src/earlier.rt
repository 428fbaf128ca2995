ghost use Rattle.std.specs.Prelude.{◌≡◌, ◌+◌, ◌<◌, ◌^◌, ◌++◌, ◌∷◌, [], ℕ, All, Contains, IfNone, IfOk, IfSome, IsTrue, ◌↔◌};
ghost use Rattle.std.specs.Prelude.{length, map};
ghost use Rattle.explained_waves.specs.Reasons.{AreSoundRanks, MayBeEarlier, one_earlier};
ghost use Rattle.igp_theory.specs.Phases.{all_old};
ghost use Rattle.igp_theory.specs.Timetables.{router_times};
ghost use Rattle.loop_finder.specs.Faults.{told, told_fault};
ghost use Rattle.loop_finder.specs.Times.{times_in};
ghost use Rattle.net_model.specs.RouterNames.{names_of};
ghost use Rattle.order_core.specs.Rankings.{IsRanking, rank_of};
ghost use Rattle.order_core.specs.Turns.{old_routers};
ghost use Rattle.order_core.specs.declared.turn.Turn.{Turn};
ghost use Rattle.printed_lines.specs.Words.{joined, router_word, spaced};
ghost use Rattle.rib_mix.specs.Mixture.{migration_of};
ghost use Rattle.explained_texts.specs.RingWords.{tagged_word};
ghost use Rattle.refutation_check.specs.TreeLines.{letter_of};
ghost use Rattle.explained_texts.specs.ReasonTexts.{IsLowestBefore, IsReasonLine, KeepsLater, after_words, may_words};
ghost use Rattle.explained_texts.specs.steps.Asking.{is_old_of};
ghost use Rattle.explained_texts.specs.ToldItems.{TellsMore};

use crate::OutOfMemory;
use crate::ring::{lowest_before, with_turns};
use loop_finder::{ChangeWaves, Fault, Finder};
use net_model::Net;
use order_core::{Tag, Turn};
use printed_lines::{LineBuilder, TextBuilder};
use rib_mix::Mixed;
use route_core::RouteSource;
use std::alloc::Global;
use std::marker::Model;

/// A wave list that the migration is sound throughout, of whose routers is asked whether they may stand one wave earlier.
///
/// Seen as what the migration is over, the ranks of the routers, and the ring of the latest loop.
#[derive(Drop)]
pub(crate) struct EarlierList<'a, O: RouteSource, N: RouteSource> {
    mixed: &'a Mixed<'a, O, N>,
    ranks: &'a [u32],
    finder: Finder<'a, O, N>,
    /// Room for the timetable of the list with a router one wave earlier.
    times: Vec<ChangeWaves>,
}

impl<'a, O: RouteSource, N: RouteSource> Model for EarlierList<'a, O, N> {
    ghost use Rattle.std.specs.Prelude.{vec_len};
    ghost use Rattle.explained_texts.specs.AskedLists.{AskedList};
    ghost use Rattle.explained_texts.specs.steps.Asking.{IsListAsked};

    ghost Value = { AskedList O N };

    ghost view = { λ x. record { mixture = x.mixed.now; ranks = x.ranks.now; ring = x.finder.ring } };

    ghost invariant = { λ x. IsListAsked O.table N.table
        (record { mixture = x.mixed.now; ranks = x.ranks.now; ring = x.finder.ring }) x.finder (vec_len x.times) };
}

impl<'a, O: RouteSource, N: RouteSource> EarlierList<'a, O, N> {
    /// The list of these ranks.
    pub fn new(
        alloc: Global,
        mixed: &'a Mixed<'a, O, N>,
        ranks: &'a [u32],
    ) -> Result<EarlierList<'a, O, N>, OutOfMemory>
        requires each { length ranks.now ≡ length mixed.now.net }
        requires few { (u : ℕ) → rank_of ranks.now u + 1 < 2 ^ 32 }
        requires short { length ranks.now < 2 ^ 32 }
        requires sound { AreSoundRanks (migration_of O.table N.table mixed.now) ranks.now }
        ensures mixture { IfOk result (λ list. list.mixture ≡ mixed.now) }
        ensures ranks { IfOk result (λ list. list.ranks ≡ ranks.now) }
    {
        let finder = Finder::new(alloc, mixed)?;
        let once = ChangeWaves {
            first: 1,
            second: 1,
        };
        let times = vec![in alloc; once; mixed.net().routers() as usize]?;
        Ok(EarlierList {
            mixed,
            ranks,
            finder,
            times,
        })
    }

    /// The text with what is told of a router more.
    pub fn with_told(
        &mut self,
        alloc: Global,
        text: TextBuilder,
        router: u32,
    ) -> Result<TextBuilder, OutOfMemory>
        requires { router < length self.old.ranks }
        ensures mixture { self.new.mixture ≡ self.old.mixture }
        ensures ranks { self.new.ranks ≡ self.old.ranks }
        ensures told { IfOk result (TellsMore
            (IsReasonLine (migration_of O.table N.table self.old.mixture) self.old.ranks) router text) }
    {
        if self.ranks[router as usize] == 0 {
            return Ok(text);
        }
        let line = self.reason_line(alloc, router)?;
        text.line(line)
    }

    /// The line of a router behind the first wave.
    fn reason_line(&mut self, alloc: Global, router: u32) -> Result<LineBuilder, OutOfMemory>
        requires router { router < length self.old.ranks }
        requires later { 0 < rank_of self.old.ranks router }
        ensures mixture { self.new.mixture ≡ self.old.mixture }
        ensures ranks { self.new.ranks ≡ self.old.ranks }
        ensures told { IfOk result (λ line.
            IsReasonLine (migration_of O.table N.table self.old.mixture) self.old.ranks router (line ++ 10 ∷ [])) }
    {
        let found = self.earlier_fault(router);
        told_line(
            alloc,
            self.mixed,
            self.ranks,
            (router, found),
            self.finder.ring(),
        )
    }

    /// The fault of the list with a router one wave earlier; none where the migration is sound throughout that.
    fn earlier_fault(&mut self, router: u32) -> Option<Fault>
        requires router { router < length self.old.ranks }
        requires later { 0 < rank_of self.old.ranks router }
        ensures mixture { self.new.mixture ≡ self.old.mixture }
        ensures ranks { self.new.ranks ≡ self.old.ranks }
        ensures free { IfNone result (MayBeEarlier (migration_of O.table N.table self.old.mixture) self.old.ranks router) }
        ensures kept { IfSome result (λ fault. KeepsLater (migration_of O.table N.table self.old.mixture) self.old.ranks router
            (told_fault fault self.new.ring)) }
    {
        earlier_waves(self.ranks, router, &mut self.times);
        let found = self.finder.times_fault(self.times.as_slice());
        fault_alone(found)
    }
}

/// The line of a router behind the first wave, from the fault of the list with it one wave earlier, and the ring of that.
fn told_line<O: RouteSource, N: RouteSource>(
    alloc: Global,
    mixed: &Mixed<'_, O, N>,
    ranks: &[u32],
    told: (u32, Option<Fault>),
    ring: &[Turn],
) -> Result<LineBuilder, OutOfMemory>
    requires router { told.0 < length ranks.now }
    requires each { length ranks.now ≡ length mixed.now.net }
    requires few { (u : ℕ) → rank_of ranks.now u + 1 < 2 ^ 32 }
    requires short { length ranks.now < 2 ^ 32 }
    requires later { 0 < rank_of ranks.now told.0 }
    requires free { IfNone told.1 (MayBeEarlier (migration_of O.table N.table mixed.now) ranks.now told.0) }
    requires kept { IfSome told.1 (λ fault. KeepsLater (migration_of O.table N.table mixed.now) ranks.now told.0
        (told_fault fault ring.now)) }
    ensures { IfOk result (λ line.
        IsReasonLine (migration_of O.table N.table mixed.now) ranks.now told.0 (line ++ 10 ∷ [])) }
{
    let (router, found) = told;
    let net = mixed.net();
    match found {
        None => may_line(alloc, net, ranks, router),
        Some(fault) => fault_line(alloc, mixed, ranks, (router, fault), ring),
    }
}

/// The line of a router that a fault keeps behind the first wave: a loop, whose ring this is.
fn fault_line<O: RouteSource, N: RouteSource>(
    alloc: Global,
    mixed: &Mixed<'_, O, N>,
    ranks: &[u32],
    told: (u32, Fault),
    ring: &[Turn],
) -> Result<LineBuilder, OutOfMemory>
    requires router { told.0 < length ranks.now }
    requires each { length ranks.now ≡ length mixed.now.net }
    requires few { (u : ℕ) → rank_of ranks.now u + 1 < 2 ^ 32 }
    requires short { length ranks.now < 2 ^ 32 }
    requires later { 0 < rank_of ranks.now told.0 }
    requires kept { KeepsLater (migration_of O.table N.table mixed.now) ranks.now told.0 (told_fault told.1 ring.now) }
    ensures { IfOk result (λ line.
        IsReasonLine (migration_of O.table N.table mixed.now) ranks.now told.0 (line ++ 10 ∷ [])) }
{
    let (router, fault) = told;
    let net = mixed.net();
    match fault {
        Fault::Loop { address } => {
            let after = lowest_before(ranks, ring, router);
            after_line(alloc, net, ranks, (router, after, address), ring)
        }
        Fault::Missing { .. } => unreachable!(),
    }
}

/// The fault alone, of an answer with the number of its wave.
pub fn fault_alone(found: Option<(u32, Fault)>) -> Option<Fault>
    ensures { result ≡ told found }
{
    match found {
        Some((_, fault)) => Some(fault),
        None => None,
    }
}

/// The timetable of ranked routers, one of which stands one wave earlier.
fn earlier_waves(ranks: &[u32], earlier: u32, times: &mut [ChangeWaves])
    requires many { length times.old ≡ length ranks.now }
    requires few { (u : ℕ) → rank_of ranks.now u + 1 < 2 ^ 32 }
    requires later { 0 < rank_of ranks.now earlier }
    requires router { earlier < length ranks.now }
    ensures { times_in times.new ≡ router_times all_old (one_earlier ranks.now earlier) }
{
    for router in 0..ranks.len() {
        let wave = earlier_wave(ranks, earlier, router);
        times[router] = ChangeWaves {
            first: wave,
            second: wave,
        };
    }
}

/// The wave of a router, or of a single change, where another or itself stands one wave earlier; counted from 1.
pub fn earlier_wave(ranks: &[u32], earlier: u32, router: usize) -> u32
    requires router { router < length ranks.now }
    requires earlier { earlier < length ranks.now }
    requires few { (u : ℕ) → rank_of ranks.now u + 1 < 2 ^ 32 }
    requires later { 0 < rank_of ranks.now earlier }
    ensures { result ≡ rank_of (one_earlier ranks.now earlier) router + 1 }
{
    if router == earlier as usize {
        ranks[router]
    } else {
        ranks[router] + 1
    }
}

/// The line of a router that may stand one wave earlier.
fn may_line(
    alloc: Global,
    net: &Net,
    ranks: &[u32],
    router: u32,
) -> Result<LineBuilder, OutOfMemory>
    requires router { router < length net.now }
    requires each { length ranks.now ≡ length net.now }
    ensures { IfOk result (λ line. line ≡ joined (router_word (names_of net.now) router ∷ may_words ranks.now router)) }
{
    let wave = u64::from(ranks[router as usize]) + 1;
    let line = LineBuilder::start(alloc, name_of(net, router))?;
    let line = line.word(b"wave")?.number(wave)?;
    line.word(b"may")?.word(b"be")?.word(b"earlier")
}

/// The line of a router that comes after another one, by a loop: the two routers, the address, and the ring.
fn after_line(
    alloc: Global,
    net: &Net,
    ranks: &[u32],
    told: (u32, u32, u32),
    ring: &[Turn],
) -> Result<LineBuilder, OutOfMemory>
    requires router { told.0 < length net.now }
    requires after { told.1 < length net.now }
    requires each { length ranks.now ≡ length net.now }
    requires inside { All (λ turn. turn.router < length net.now) ring.now }
    ensures { IfOk result (λ line. line ≡ joined (router_word (names_of net.now) told.0
        ∷ after_words (names_of net.now) ranks.now told.0 told.1 told.2 ring.now)) }
{
    let (router, after, address) = told;
    let wave = u64::from(ranks[router as usize]) + 1;
    let line = LineBuilder::start(alloc, name_of(net, router))?;
    let line = line.word(b"wave")?.number(wave)?.word(b"after")?;
    let line = line.word(name_of(net, after))?.address(address)?;
    with_turns(line, net, ring)
}

/// The name of a router.
pub(crate) fn name_of(net: &Net, router: u32) -> &[u8]
    requires { router < length net.now }
    ensures { result.now ≡ router_word (names_of net.now) router }
{
    net.config(router).name.as_slice()
}
