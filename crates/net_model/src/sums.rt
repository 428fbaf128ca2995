ghost use Rattle.std.specs.Prelude.{◌≡◌, ◌<◌, ◌^◌, if◌then◌else◌, IfErr, OnOk, sum_by};
ghost use Rattle.net_model.specs.Conditions.{IsisMetricsFit, OspfCostsFit, isis_metric, isis_metric_sum, summed_cost, ospf_cost_sum};
ghost use Rattle.net_model.specs.Conditions.{ospf_costs, stated_cost};
ghost use Rattle.net_model.specs.Refusals.{MayStand, carried};

use crate::{Config, Interface, MOST_COST, MOST_PATH_METRIC, NetRefusal, Range, Stub};

/// Refuses costs of OSPF whose sum is above the greatest cost of a path.
pub fn check_ospf_costs(configs: &[Config]) -> Result<(), NetRefusal>
    ensures ok { OnOk result (OspfCostsFit configs.now) }
    ensures err { IfErr result (λ e. MayStand 7 e configs.now) }
{
    let sum = sum_ospf_costs(configs);
    if sum > u64::from(MOST_COST) {
        return Err(NetRefusal::OspfCostSum { sum });
    }
    Ok(())
}

/// Refuses metrics of IS-IS whose sum is above the greatest metric of a path.
pub fn check_isis_metrics(configs: &[Config]) -> Result<(), NetRefusal>
    ensures ok { OnOk result (IsisMetricsFit configs.now) }
    ensures err { IfErr result (λ e. MayStand 8 e configs.now) }
{
    let sum = sum_isis_metrics(configs);
    if sum > u64::from(MOST_PATH_METRIC) {
        return Err(NetRefusal::IsisMetricSum { sum });
    }
    Ok(())
}

/// The sum of all OSPF costs, or 2^64 - 1 where it is more.
fn sum_ospf_costs(configs: &[Config]) -> u64
    ensures { result ≡ carried (ospf_cost_sum configs.now) }
{
    let mut sum = 0u64;
    for config in configs {
        sum = sum.saturating_add(router_costs(config));
    }
    sum
}

/// The sum of the OSPF costs of a router.
fn router_costs(config: &Config) -> u64
    ensures { result ≡ carried (ospf_costs config.now) }
{
    let interfaces = interface_costs(config.interfaces.as_slice());
    let ranges = range_costs(config.ranges.as_slice());
    let stubs = default_costs(config.stubs.as_slice());
    interfaces.saturating_add(ranges).saturating_add(stubs)
}

/// The sum of the costs of up OSPF interfaces.
fn interface_costs(interfaces: &[Interface]) -> u64
    ensures { result ≡ carried (sum_by summed_cost interfaces.now) }
{
    let mut sum = 0u64;
    for interface in interfaces {
        sum = sum.saturating_add(u64::from(own_cost(interface)));
    }
    sum
}

/// The interface's OSPF cost, if it is up and runs OSPF.
fn own_cost(interface: &Interface) -> u32
    ensures { result ≡ summed_cost interface.now }
{
    if interface.up && interface.area.is_some() {
        interface.cost
    } else {
        0
    }
}

/// The sum of the costs that ranges state.
fn range_costs(ranges: &[Range]) -> u64
    ensures { result ≡ carried (sum_by (λ r. stated_cost r.cost) ranges.now) }
{
    let mut sum = 0u64;
    for range in ranges {
        sum = sum.saturating_add(u64::from(range.cost.unwrap_or(0)));
    }
    sum
}

/// The sum of the default costs of stub areas.
fn default_costs(stubs: &[Stub]) -> u64
    ensures { result ≡ carried (sum_by (λ s. s.default_cost) stubs.now) }
{
    let mut sum = 0u64;
    for stub in stubs {
        sum = sum.saturating_add(u64::from(stub.default_cost));
    }
    sum
}

/// The sum of all IS-IS metrics, or 2^64 - 1 where it is more.
fn sum_isis_metrics(configs: &[Config]) -> u64
    ensures { result ≡ carried (isis_metric_sum configs.now) }
{
    let mut sum = 0u64;
    for config in configs {
        sum = sum.saturating_add(interface_metrics(config.interfaces.as_slice()));
    }
    sum
}

/// The sum of the metrics of up interfaces, once for each level that they run.
fn interface_metrics(interfaces: &[Interface]) -> u64
    ensures { result ≡ carried (sum_by isis_metric interfaces.now) }
{
    let mut sum = 0u64;
    for interface in interfaces {
        sum = sum.saturating_add(own_metrics(interface));
    }
    sum
}

/// The interface's metric for each level that it runs, if it is up.
fn own_metrics(interface: &Interface) -> u64
    ensures { result ≡ isis_metric interface.now }
{
    if interface.up {
        level_metric(interface.level1, interface.metric1)
            + level_metric(interface.level2, interface.metric2)
    } else {
        0
    }
}

/// The metric of a level, if the interface runs it.
fn level_metric(runs: bool, metric: u32) -> u64
    ensures value { result ≡ (if runs then metric else 0) }
    ensures fits { result < 2 ^ 32 }
{
    if runs { u64::from(metric) } else { 0 }
}
