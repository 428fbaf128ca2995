ghost use Rattle.igp_theory.specs.Laws.{IntraAreasAreUnique, IntraAreaCostsAreUnique, InterAreaCostsAreUnique, BorderCostsAreInterArea, OspfEntriesAreUnique};
ghost use Rattle.igp_theory.specs.Laws.{IsisEntriesAreUnique, OspfHopsAreNeighbors, IsisHopsAreNeighbors, OspfEntriesForward, IsisEntriesForward};

/// The law that OSPF gives a prefix one intra-area cost and one inter-area cost at a router.
///
/// Intra-area costs need a network that keeps one area for each subnet; inter-area costs don't.
pub fn costs_are_unique()
    ensures intra_area { IntraAreasAreUnique }
    ensures intra_area_cost { IntraAreaCostsAreUnique }
    ensures inter_area_cost { InterAreaCostsAreUnique }
    ensures border_cost { BorderCostsAreInterArea }
{}

/// The law that a router has at most one entry of each protocol for a prefix, in any network.
pub fn entries_are_unique()
    ensures ospf { OspfEntriesAreUnique }
    ensures isis { IsisEntriesAreUnique }
{}

/// The law that every hop of an entry is adjacent to its router, in a zone of the entry's protocol.
pub fn hops_are_neighbors()
    ensures ospf { OspfHopsAreNeighbors }
    ensures isis { IsisHopsAreNeighbors }
{}

/// The law that every entry that isn't a discard forwards somewhere.
pub fn entries_forward()
    ensures ospf { OspfEntriesForward }
    ensures isis { IsisEntriesForward }
{}
