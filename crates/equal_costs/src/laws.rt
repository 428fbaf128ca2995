ghost use Rattle.equal_costs.specs.EqualCosts.{EqualCostsAreSound, EqualCostsKeepTables};

/// The law that in a network of one OSPF area, in which IS-IS runs level 2 at the same costs, both protocols give every router the
/// same entries.
pub fn equal_costs_keep_tables()
    ensures { EqualCostsKeepTables }
{}

/// The law that every state of a migration of such a network is sound where its first state is, so that every order and every
/// wave list is seamless then.
pub fn equal_costs_are_sound()
    ensures { EqualCostsAreSound }
{}
