ghost use Rattle.std.specs.Prelude.{◌≡◌, ◌≤◌, length, take_while, unwrap_or};
ghost use Rattle.std.specs.List.{prefix_len};
ghost use Rattle.net_model.specs.LevelSets.{has_level_one, has_level_two};
ghost use Rattle.ios_lines.specs.Words.{is_letter};
ghost use Rattle.ios_lines.specs.Lookups.{good_value};
ghost use Rattle.ios_reader.specs.steps.Passives.{ArePassivesOf};
ghost use Rattle.ios_reader.specs.InterfacesAsRead.{address_given, is_loopback, is_up, names_process, area_by, interface_area, default_bandwidth};
ghost use Rattle.ios_reader.specs.InterfacesAsRead.{cost_of_bandwidth, cost_by_bandwidth, default_cost, ospf_cost};
ghost use Rattle.ios_reader.specs.InterfacesAsRead.{is_ospf_passive, runs_isis, runs_level, metric_by, level_metric, address_field, subnet_field, cost_field};
ghost use Rattle.ios_reader.specs.InterfacesAsRead.{interface_with};

use crate::facts::{InterfaceFacts, PlacedAddress};
use crate::passive::Passives;
use crate::router::{Router, levels_or_both, network_area};
use ios_lines::DEFAULT_METRIC;
use ios_lines::address::InterfaceAddress;
use ios_lines::interface_line::ProcessArea;
use ios_lines::kind::ReadKind;
use ios_lines::words::{is_letter, is_text};
use net_addr::{Name, Prefix};
use net_model::{Interface, Levels, MOST_INTERFACE_COST};

/// The address that the last address line gives.
fn address_given(address: Option<Option<PlacedAddress>>) -> Option<InterfaceAddress>
    ensures { result ≡ address_given address }
{
    match address {
        Some(Some(placed)) => match placed.address {
            Ok(given) => Some(given),
            Err(_) => None,
        },
        _ => None,
    }
}

/// Whether the interface is a loopback.
pub(crate) fn is_loopback(name: &[u8]) -> bool
    ensures { result ≡ is_loopback name.now }
{
    name.starts_with(b"Loopback".as_slice())
}

/// Whether an interface with these lines is up: it has an address, and isn't shut down.
pub(crate) fn is_up(facts: &InterfaceFacts) -> bool
    ensures { result ≡ is_up facts.now }
{
    address_given(facts.address).is_some() && !facts.shut.unwrap_or(false)
}

/// Whether the interface's own line names the process of the router.
fn names_process(process: Option<u32>, said: ProcessArea) -> bool
    ensures { result ≡ names_process process said }
{
    match process {
        Some(process) => said.process == process,
        None => false,
    }
}

/// The area: of the interface's own line, else of the first network line that takes its address.
fn area_by(
    process: Option<u32>,
    own: Option<Result<ProcessArea, ReadKind>>,
    by_network: Option<u32>,
) -> Option<u32>
    ensures { result ≡ area_by process own by_network }
{
    match own {
        None => by_network,
        Some(Ok(said)) => {
            if names_process(process, said) {
                Some(said.area)
            } else {
                None
            }
        }
        Some(Err(_)) => None,
    }
}

/// The area of an interface; without an address it has none.
pub(crate) fn interface_area(router: &Router, facts: &InterfaceFacts) -> Option<u32>
    ensures { result ≡ interface_area router.now facts.now }
{
    match address_given(facts.address) {
        Some(given) => area_by(
            router.process,
            facts.area,
            network_area(router, given.address()),
        ),
        None => None,
    }
}

/// The bandwidth of a kind of interface, in kbit/s.
fn default_bandwidth(letters: &[u8]) -> Option<u32>
    ensures { result ≡ default_bandwidth letters.now }
{
    if is_text(letters, b"TenGigabitEthernet") {
        return Some(10000000);
    }
    if is_text(letters, b"GigabitEthernet") {
        return Some(1000000);
    }
    if is_text(letters, b"FastEthernet") {
        return Some(100000);
    }
    if is_text(letters, b"Ethernet") {
        return Some(10000);
    }
    if is_text(letters, b"Serial") {
        return Some(1544);
    }
    None
}

/// How many letters a name begins with.
fn letter_count(name: &[u8]) -> usize
    ensures value { result ≡ prefix_len is_letter name.now }
    ensures bound { result ≤ length name.now }
{
    name.iter().take_while(|byte| is_letter(**byte)).count()
}

/// The letters that a name begins with.
fn letters_of(name: &[u8]) -> &[u8]
    ensures { result.now ≡ take_while is_letter name.now }
{
    &name[..letter_count(name)]
}

/// The cost of a bandwidth in kbit/s, by a reference in Mbit/s: rounded down, from 1 to `MOST_INTERFACE_COST`.
fn cost_of_bandwidth(reference: u32, bandwidth: u32) -> u32
    ensures { result ≡ cost_of_bandwidth reference bandwidth }
{
    if bandwidth == 0 {
        return 1;
    }
    let cost = u64::from(reference) * 1000 / u64::from(bandwidth);
    cost.max(1).min(u64::from(MOST_INTERFACE_COST)) as u32
}

/// A cost by the interface's own bandwidth, else by its kind's.
fn cost_by_bandwidth(
    reference: u32,
    own: Option<Result<u32, ReadKind>>,
    kind: Option<u32>,
) -> Option<u32>
    ensures { result ≡ cost_by_bandwidth reference own kind }
{
    match own {
        Some(Ok(bandwidth)) => Some(cost_of_bandwidth(reference, bandwidth)),
        Some(Err(_)) => Some(1),
        None => match kind {
            Some(bandwidth) => Some(cost_of_bandwidth(reference, bandwidth)),
            None => None,
        },
    }
}

/// The cost without a cost line: 1 on a loopback, else by a bandwidth.
fn default_cost(
    reference: u32,
    name: &[u8],
    bandwidth: Option<Result<u32, ReadKind>>,
) -> Option<u32>
    ensures { result ≡ default_cost reference name.now bandwidth }
{
    if is_loopback(name) {
        return Some(1);
    }
    cost_by_bandwidth(reference, bandwidth, default_bandwidth(letters_of(name)))
}

/// The OSPF cost of an interface, where anything gives one: its cost line, or else its kind.
pub(crate) fn ospf_cost(router: &Router, name: &[u8], facts: &InterfaceFacts) -> Option<u32>
    ensures { result ≡ ospf_cost router.now name.now facts.now }
{
    match facts.cost {
        Some(Ok(cost)) => Some(cost),
        Some(Err(_)) => Some(1),
        None => default_cost(router.reference, name, facts.bandwidth),
    }
}

/// Whether the interface is passive for OSPF.
fn is_ospf_passive(router: &Router, passives: &Passives, name: &[u8]) -> bool
    requires { ArePassivesOf router.now passives.now }
    ensures { result ≡ is_ospf_passive router.now name.now }
{
    passives.ospf.get(name).unwrap_or(router.passive_default)
}

/// Whether an interface that is passive or not runs IS-IS: by its own line, or since it is passive.
fn runs_isis(passive: bool, facts: &InterfaceFacts) -> bool
    ensures { result ≡ runs_isis passive facts.now }
{
    passive || facts.isis.is_some()
}

/// Whether an interface that is passive or not runs level 1, on a router of these levels.
fn runs_level_one(levels: Levels, passive: bool, facts: &InterfaceFacts) -> bool
    ensures { result ≡ runs_level has_level_one levels passive facts.now }
{
    runs_isis(passive, facts)
        && levels.has_level_one()
        && (passive || levels_or_both(facts.circuit).has_level_one())
}

/// Whether an interface that is passive or not runs level 2, on a router of these levels.
fn runs_level_two(levels: Levels, passive: bool, facts: &InterfaceFacts) -> bool
    ensures { result ≡ runs_level has_level_two levels passive facts.now }
{
    runs_isis(passive, facts)
        && levels.has_level_two()
        && (passive || levels_or_both(facts.circuit).has_level_two())
}

/// A number that is there and good.
fn good_value(value: Option<Result<u32, ReadKind>>) -> Option<u32>
    ensures { result ≡ good_value value }
{
    match value {
        Some(Ok(value)) => Some(value),
        _ => None,
    }
}

/// The metric of a level: by a line with the level, else by one without, else the router's.
fn metric_by(own: Option<u32>, both: Option<u32>, router: u32) -> u32
    ensures { result ≡ metric_by own both router }
{
    match own {
        Some(metric) => metric,
        None => both.unwrap_or(router),
    }
}

/// The metric of a level by the router's metric, the default on an interface that runs no IS-IS.
fn level_metric(
    router: u32,
    passive: bool,
    facts: &InterfaceFacts,
    own: Option<Result<u32, ReadKind>>,
) -> u32
    ensures { result ≡ level_metric router passive facts.now own }
{
    if runs_isis(passive, facts) {
        metric_by(good_value(own), good_value(facts.metric), router)
    } else {
        DEFAULT_METRIC
    }
}

/// The address field: 0 where there is no address.
fn address_field(given: Option<InterfaceAddress>) -> u32
    ensures { result ≡ address_field given }
{
    match given {
        Some(given) => given.address(),
        None => 0,
    }
}

/// The subnet field.
fn subnet_field(given: Option<InterfaceAddress>) -> Option<Prefix>
    ensures { result ≡ subnet_field given }
{
    match given {
        Some(given) => Some(given.subnet()),
        None => None,
    }
}

/// The cost field: an interface without an area has the cost 1.
fn cost_field(area: Option<u32>, cost: Option<u32>) -> u32
    ensures { result ≡ cost_field area cost }
{
    match area {
        Some(_) => cost.unwrap_or(1),
        None => 1,
    }
}

/// An interface as read, from what its lines say.
pub(crate) fn interface_with(
    router: &Router,
    passives: &Passives,
    name: Name,
    facts: &InterfaceFacts,
) -> Interface
    requires { ArePassivesOf router.now passives.now }
    ensures { result ≡ interface_with router.now name facts.now }
{
    let area = interface_area(router, facts);
    let cost = cost_field(area, ospf_cost(router, name.as_slice(), facts));
    let up = is_up(facts);
    let loopback = is_loopback(name.as_slice());
    let ospf_passive = is_ospf_passive(router, passives, name.as_slice());
    let isis_passive = passives.is_isis_passive(name.as_slice());
    let level1 = runs_level_one(router.levels, isis_passive, facts);
    let level2 = runs_level_two(router.levels, isis_passive, facts);
    let metric1 = level_metric(router.metric, isis_passive, facts, facts.metric1);
    let metric2 = level_metric(router.metric, isis_passive, facts, facts.metric2);
    Interface {
        name,
        address: address_field(address_given(facts.address)),
        subnet: subnet_field(address_given(facts.address)),
        up,
        loopback,
        area,
        cost,
        ospf_passive,
        level1,
        level2,
        metric1,
        metric2,
        isis_passive,
    }
}
