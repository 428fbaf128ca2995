ghost use Rattle.std.specs.Prelude.{◌≡◌, ◌↔◌, ◌<◌, ◌≤◌, length, Contains, IsTrue, IfSome, IfNone};
ghost use Rattle.order_core.specs.Rankings.{rank_of, KeepsPairs};
ghost use Rattle.order_search.specs.TwoTurns.{two_turns};
ghost use Rattle.order_search.specs.Meanings.{AreRising};
ghost use Rattle.worked_examples.specs.Wanting.{AreApart};

use order_search::{Answer, Oracle, Tag, Turn};

/// Calls good the rankings that keep its base and the pairs that it wants kept besides. Of another one it tells the
/// first wanted pair that isn't kept: its first number as Old, its second as New.
#[derive(Drop)]
pub(crate) struct Wanting<'a> {
    size: u32,
    base: &'a [(u32, u32)],
    wants: &'a [(u32, u32)],
    turns: [Turn; 2],
    pub ghost some: { 1 ≤ size },
    pub ghost few: { size ≤ 1000 },
    pub ghost base_few: { length base.now ≤ size },
    pub ghost base_rises: { AreRising size base.now },
    pub ghost apart: { AreApart size wants.now },
}

impl<'a> Wanting<'a> {
    /// The oracle over so many numbers. The base has at most as many pairs, each with its lower number first; the wanted
    /// pairs are of different numbers.
    pub fn new(size: u32, base: &'a [(u32, u32)], wants: &'a [(u32, u32)]) -> Option<Wanting<'a>> {
        if size < 1 || 1000 < size || base.len() > size as usize {
            return None;
        }
        if !are_rising(size, base) || !are_apart(size, wants) {
            return None;
        }
        Some(Wanting {
            size,
            base,
            wants,
            turns: turns_of(0, 0),
        })
    }
}

impl Oracle for Wanting<'_> {
    ghost use Rattle.worked_examples.specs.Wanting.{AreWanted, RanksSomeOldFirst-wanted};

    ghost meaning = { λ o. record {
      good = λ ranks. KeepsPairs ranks o.base.now × KeepsPairs ranks o.wants.now;
      real = λ address turns. AreWanted o.wants.now turns;
      picked = λ ranks address turns. Unit {0};
      size = o.size;
      base = o.base.now;
    } };

    ghost shown = { λ o. o.turns };

    ghost decisive = { λ o. record {
      keeps_base = λ ranks good. good.0;
      decides = λ address turns ranks wanted both good. RanksSomeOldFirst-wanted o.wants.now turns ranks wanted good.1;
    } };

    fn size(&self) -> u32 {
        self.size
    }

    fn base(&self) -> &[(u32, u32)] {
        self.base
    }

    fn ask(&mut self, ranks: &[u32]) -> Answer {
        match first_unkept(self.wants, ranks) {
            Some((before, after)) => {
                self.turns = turns_of(before, after);
                Answer::Breaks { address: 0 }
            }
            None => Answer::Fine,
        }
    }

    fn turns(&self) -> &[Turn] {
        &self.turns
    }
}

/// The turns of two numbers, the first one Old and the second one New.
fn turns_of(old: u32, new: u32) -> [Turn; 2]
    ensures { result ≡ two_turns old new }
{
    [
        Turn {
            router: old,
            tag: Tag::Old,
        },
        Turn {
            router: new,
            tag: Tag::New,
        },
    ]
}

/// Whether each pair is of two numbers below the size, the lower one first.
fn are_rising(size: u32, pairs: &[(u32, u32)]) -> bool
    ensures { IsTrue result ↔ AreRising size pairs.now }
{
    pairs.iter().all(|pair| pair.0 < pair.1 && pair.1 < size)
}

/// Whether each pair is of two different numbers below the size.
fn are_apart(size: u32, pairs: &[(u32, u32)]) -> bool
    ensures { IsTrue result ↔ AreApart size pairs.now }
{
    pairs
        .iter()
        .all(|pair| pair.0 < size && pair.1 < size && pair.0 != pair.1)
}

/// The first wanted pair that a ranking doesn't keep.
fn first_unkept(wants: &[(u32, u32)], ranks: &[u32]) -> Option<(u32, u32)>
    requires { AreApart (length ranks.now) wants.now }
    ensures wanted { IfSome result (Contains wants.now) }
    ensures late { IfSome result (λ pair. rank_of ranks.now pair.1 ≤ rank_of ranks.now pair.0) }
    ensures none { IfNone result (KeepsPairs ranks.now wants.now) }
{
    for i in 0..wants.len() {
        let (before, after) = wants[i];
        if ranks[after as usize] <= ranks[before as usize] {
            return Some((before, after));
        }
    }
    None
}
