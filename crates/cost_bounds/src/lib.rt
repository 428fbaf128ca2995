//! Every cost of OSPF and of IS-IS is at most the sum by which `Net::build` refuses a network: that is why the definitions
//! need no rule for costs that are too large.
#![tactic(auto)]

ghost use Rattle.cost_bounds.specs.IsisCosts.{IsisCostsAreAtMostSum, IsisCostsArePathMetrics};
ghost use Rattle.cost_bounds.specs.OspfCosts.{OspfCostsAreAtMostSum, OspfCostsAreReachable, InterAreaCostsAreAtMostTwice};

/// The law that OSPF costs at most the sum of all its costs.
pub fn ospf_costs_are_bounded()
    ensures sum { OspfCostsAreAtMostSum }
    ensures reachable { OspfCostsAreReachable }
    ensures twice { InterAreaCostsAreAtMostTwice }
{}

/// The law that IS-IS costs at most the sum of all its metrics.
pub fn isis_costs_are_bounded()
    ensures sum { IsisCostsAreAtMostSum }
    ensures path_metrics { IsisCostsArePathMetrics }
{}
