ghost use Rattle.igp_theory.specs.Laws.{LeastCostsAreUnique, BestCostsAreUnique};
ghost use Rattle.std.specs.Prelude.{ℕ};

/// Any arc relation: from where, to where, at what cost.
pub trait ArcRelation {
    /// The arcs.
    ghost arc: { ℕ → ℕ → ℕ → Type 0 };
}

/// Any offers: where they are made, and what they ask.
pub trait OfferRelation {
    /// The offers.
    ghost offer: { ℕ → ℕ → Type 0 };
}

/// The law that there is at most one least cost from one router to another, over any arcs.
pub fn least_cost_is_unique<A: ArcRelation>()
    ensures { LeastCostsAreUnique A.arc }
{}

/// The law that some offers have at most one best cost at a router, over any arcs and any offers.
pub fn best_cost_is_unique<A: ArcRelation, O: OfferRelation>()
    ensures { BestCostsAreUnique A.arc O.offer }
{}
