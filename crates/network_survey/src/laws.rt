ghost use Rattle.network_survey.specs.Neighbors.{NeighborLaw};

/// What it means that no `half` and no `oneside ospf` is told: every interface that runs OSPF unpassively in an area has a
/// neighbor there.
pub fn neighbor_law()
    ensures { NeighborLaw }
{}
