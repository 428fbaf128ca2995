ghost use Rattle.std.specs.Prelude.{◌≡◌, ℕ, ◌+◌, ◌<◌, ◌≤◌, length, IfSome, IfNone};
ghost use Rattle.order_core.specs.Rankings.{rank_of};
ghost use Rattle.migrate_bench.specs.Ascending.{IsAscending, IsScanned};
ghost use Rattle.order_search.specs.TwoTurns.{two_turns};

use order_search::{Answer, Oracle, Tag, Turn};

/// Calls only the ranking good in which each number has itself as its rank. Of another one it takes the lowest number
/// that has a later one of no higher rank, and the first such one: the lower as Old, the higher as New. Where the
/// search asks, that is the lowest number that shares its rank with a later one.
#[derive(Debug, Drop)]
pub struct Ascending {
    size: u32,
    turns: [Turn; 2],
}

impl Ascending {
    /// The oracle of so many numbers.
    pub fn new(size: u32) -> Ascending
        ensures { result.size ≡ size }
    {
        Ascending {
            size,
            turns: turns_of(0, 0),
        }
    }
}

impl Oracle for Ascending {
    ghost use Rattle.std.specs.Prelude.{[]};
    ghost use Rattle.order_search.specs.Meanings.{KeepsPairs-nil};
    ghost use Rattle.migrate_bench.specs.Ascending.{IsAscending, AreRisingTurns, RanksSomeOldFirst-ascending};

    ghost meaning = { λ o. record {
      good = λ ranks. IsAscending o.size ranks;
      real = λ address turns. AreRisingTurns o.size turns;
      picked = λ ranks address turns. Unit {0};
      size = o.size;
      base = [];
    } };

    ghost shown = { λ o. o.turns };

    ghost decisive = { λ o. record {
      keeps_base = λ ranks ascending. KeepsPairs-nil ranks;
      decides = λ address turns ranks rising both ascending. RanksSomeOldFirst-ascending ranks rising ascending;
    } };

    fn size(&self) -> u32 {
        self.size
    }

    fn base(&self) -> &[(u32, u32)] {
        &[]
    }

    fn ask(&mut self, ranks: &[u32]) -> Answer {
        match first_not_risen(ranks, self.size) {
            Some((lower, higher)) => {
                self.turns = turns_of(lower, higher);
                Answer::Breaks { address: 0 }
            }
            None => Answer::Fine,
        }
    }

    fn turns(&self) -> &[Turn] {
        &self.turns
    }
}

/// The turns of two numbers, the first one Old and the second one New.
fn turns_of(old: u32, new: u32) -> [Turn; 2]
    ensures { result ≡ two_turns old new }
{
    [
        Turn {
            router: old,
            tag: Tag::Old,
        },
        Turn {
            router: new,
            tag: Tag::New,
        },
    ]
}

/// The lowest number with a later one of no higher rank, and the first such one, in time of the numbers.
fn first_not_risen(ranks: &[u32], size: u32) -> Option<(u32, u32)>
    requires { length ranks.now ≡ size }
    ensures rise { IfSome result (λ at. at.0 < at.1) }
    ensures within { IfSome result (λ at. at.1 < length ranks.now) }
    ensures late { IfSome result (λ at. rank_of ranks.now at.1 ≤ rank_of ranks.now at.0) }
    ensures none { IfNone result (IsAscending (length ranks.now) ranks.now) }
{
    let lower = lowest_not_risen(ranks, size);
    if lower == size {
        return None;
    }
    Some((lower, first_no_higher(ranks, size, lower)))
}

/// The lowest number with a later one of no higher rank, or the size where there is none.
fn lowest_not_risen(ranks: &[u32], size: u32) -> u32
    requires { length ranks.now ≡ size }
    ensures within { result ≤ size }
    ensures late { result < size → (b : ℕ) × (result < b) × (b < size) × (rank_of ranks.now b ≤ rank_of ranks.now result) }
    ensures rises { (a b : ℕ) → a < result → a < b → b < size → rank_of ranks.now a < rank_of ranks.now b }
{
    if size == 0 {
        return 0;
    }
    let mut at = size - 1;
    let mut scanned = (at, size);
    while at > 0 {
        at -= 1;
        scanned = scan(ranks, at, scanned);
    }
    scanned.1
}

/// One number more of a scan from the last one down: the number of the lowest rank, and the lowest one that has a later
/// one of no higher rank.
fn scan(ranks: &[u32], at: u32, scanned: (u32, u32)) -> (u32, u32)
    requires { IsScanned ranks.now (length ranks.now) (at + 1) scanned }
    ensures { IsScanned ranks.now (length ranks.now) at result }
{
    let (lowest, found) = scanned;
    if ranks[lowest as usize] <= ranks[at as usize] {
        (lowest, at)
    } else {
        (at, found)
    }
}

/// The first number after this one whose rank is no higher.
fn first_no_higher(ranks: &[u32], size: u32, lower: u32) -> u32
    requires size { length ranks.now ≡ size }
    requires some { (b : ℕ) × (lower < b) × (b < size) × (rank_of ranks.now b ≤ rank_of ranks.now lower) }
    ensures rise { lower < result }
    ensures within { result < size }
    ensures late { rank_of ranks.now result ≤ rank_of ranks.now lower }
{
    for higher in lower + 1..size {
        if ranks[higher as usize] <= ranks[lower as usize] {
            return higher;
        }
    }
    unreachable!()
}
