ghost use Rattle.std.specs.Prelude.{◌≡◌, ℕ, List};
ghost use Rattle.order_core.specs.Rankings.{IsRanking, KeepsPairs};
ghost use Rattle.order_search.specs.Laws.{IsDecisive};
ghost use Rattle.order_search.specs.Meanings.{Break, IsBase, Meaning, SameMeaning};
ghost use Rattle.order_core.specs.declared.turn.Turn.{Turn};

use order_core::Turn;

/// What an oracle answers of a ranking.
#[derive(Clone, Copy, Debug, PartialEq, Eq)]
pub enum Answer {
    /// The ranking is good.
    Fine,
    /// The turns that the oracle shows break it, at this address.
    Breaks {
        /// The address that the turns loop for.
        address: u32,
    },
}

/// Says whether a ranking is good, and if not, what breaks it.
pub trait Oracle {
    /// What it means: which rankings are good, which address and turns may break one, and which are told of it; how many
    /// numbers are ranked, and the pairs that every good ranking keeps.
    ghost meaning: { Self → Meaning };

    /// The turns of the latest answer.
    ghost shown: { Self → List Turn };

    /// How many numbers are ranked.
    fn size(&self) -> u32
        ensures { result ≡ (meaning self.now).size };

    /// The pairs that every good ranking keeps, for orders over more than routers.
    fn base(&self) -> &[(u32, u32)]
        ensures pairs { result.now ≡ (meaning self.now).base }
        ensures is_base { IsBase (meaning self.now).size (meaning self.now).base };

    /// Whether the ranking is good. What is meant stays.
    fn ask(&mut self, ranks: &[u32]) -> Answer
        requires ranking { IsRanking (meaning self.old).size ranks.now }
        requires keeps { KeepsPairs ranks.now (meaning self.old).base }
        ensures fine { result ≡ Answer.Fine → (meaning self.old).good ranks.now }
        ensures breaks { (address : ℕ) → result ≡ Answer.Breaks address → Break (meaning self.old) ranks.now address (shown self.new) }
        ensures same { SameMeaning (meaning self.old) (meaning self.new) };

    /// The turns that break the ranking that was asked last, where it was broken.
    fn turns(&self) -> &[Turn]
        ensures { result.now ≡ shown self.now };

    /// Every good ranking keeps the base, and gives some Old turn's router a lower rank than some New turn's router, for
    /// all that is real.
    ghost decisive: { (oracle : Self) → IsDecisive (meaning oracle).good (meaning oracle).real (meaning oracle).base };
}
