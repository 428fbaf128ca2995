ghost use Rattle.std.specs.Prelude.{◌≡◌, ◌<◌, ◌^◌, ◌↔◌, ℕ, true, length, slice_set, IfOk, IfSome, IsTrue, MatchOption};
ghost use Rattle.net_model.specs.Least.{IsLowest};
ghost use Rattle.net_model.specs.Network.{Network};
ghost use Rattle.order_core.specs.Marks.{IsMarked};
ghost use Rattle.network_survey.specs.Joined.{AllJoined, IsCutOff};
ghost use Rattle.network_survey.specs.Ports.{IsUpPort, ListsUpPorts};
ghost use Rattle.network_survey.specs.steps.Reached.{AreReachedSoFar, HasPortOn, HaveMarks, IsLowestUnmarked, IsUnvisited, MarksWhere, MeetIn};

use crate::OutOfMemory;
use crate::port::Port;
use net_addr::Prefix;
use net_model::Net;
use std::alloc::Global;

/// The lowest router that no walk over shared subnets joins with the first router. Takes time of routers times interfaces, and of
/// pairs of interfaces.
pub fn first_cut_off(
    alloc: Global,
    net: &Net,
    ports: &[Port<'_>],
) -> Result<Option<u32>, OutOfMemory>
    requires { ListsUpPorts (IsUpPort net.now) ports.now }
    ensures { IfOk result (λ cut. MatchOption cut (AllJoined net.now) (IsLowest (IsCutOff net.now))) }
{
    let routers = net.routers() as usize;
    let mut reached = vec![in alloc; false; routers]?;
    let mut done = vec![in alloc; false; routers]?;
    Ok(cut_off_by(ports, &mut reached, &mut done))
}

/// The lowest router that isn't joined with the first one. The marks, one for each router, are there to be used.
fn cut_off_by(ports: &[Port<'_>], reached: &mut [bool], done: &mut [bool]) -> Option<u32>
    requires ports { HaveMarks ports.now reached.old }
    requires reached { (v : ℕ) → ¬ IsMarked reached.old v }
    requires done { (v : ℕ) → ¬ IsMarked done.old v }
    requires count { length done.old ≡ length reached.old }
    requires few { length reached.old < 2 ^ 32 }
    ensures { (net : Network) → ListsUpPorts (IsUpPort net) ports.now → length net ≡ length reached.old →
        MatchOption result (AllJoined net) (IsLowest (IsCutOff net)) }
{
    mark(reached, 0);
    reach(reached, done, ports);
    lowest_unmarked(reached)
}

/// Marks what is reached from what is, until all that is reached is done.
fn reach(reached: &mut [bool], done: &mut [bool], ports: &[Port<'_>])
    requires reached { HaveMarks ports.now reached.old }
    requires done { length done.old ≡ length reached.old }
    requires few { length reached.old < 2 ^ 32 }
    ensures reached { (net : Network) → ListsUpPorts (IsUpPort net) ports.now → AreReachedSoFar net reached.old done.old → AreReachedSoFar net reached.new done.new }
    ensures all_done { (u : ℕ) → IsUnvisited reached.new done.new u → ⊥ }
{
    while let Some(router) = first_open(reached, done) {
        mark(done, router);
        spread(reached, ports, router);
    }
}

/// Marks the routers that share a subnet with this one.
fn spread(reached: &mut [bool], ports: &[Port<'_>], router: u32)
    requires { HaveMarks ports.now reached.old }
    ensures { MarksWhere (MeetIn ports.now ports.now router) reached.old reached.new }
{
    for port in ports {
        spread_over(reached, ports, port, router);
    }
}

/// Marks the routers that have the subnet of the port, if it is one of this router.
fn spread_over(reached: &mut [bool], ports: &[Port<'_>], port: &Port<'_>, router: u32)
    requires { HaveMarks ports.now reached.old }
    ensures { MarksWhere (λ v. (port.now.router ≡ router) × HasPortOn ports.now v port.now.subnet) reached.old reached.new }
{
    if port.router == router {
        mark_subnet(reached, ports, port.subnet);
    }
}

/// Marks the routers that have the subnet.
fn mark_subnet(reached: &mut [bool], ports: &[Port<'_>], subnet: Prefix)
    requires { HaveMarks ports.now reached.old }
    ensures { MarksWhere (λ v. HasPortOn ports.now v subnet) reached.old reached.new }
{
    for port in ports {
        mark_port(reached, port, subnet);
    }
}

/// Marks the router of the port, if it is of the subnet.
fn mark_port(marks: &mut [bool], port: &Port<'_>, subnet: Prefix)
    requires { port.now.router < length marks.old }
    ensures { MarksWhere (λ v. (port.now.router ≡ v) × (port.now.subnet ≡ subnet)) marks.old marks.new }
{
    if port.subnet == subnet {
        mark(marks, port.router);
    }
}

/// Marks a router, if there is such a one.
fn mark(marks: &mut [bool], router: u32)
    ensures { marks.new ≡ slice_set marks.old router true }
{
    if (router as usize) < marks.len() {
        marks[router as usize] = true;
    }
}

/// Whether a router is marked.
fn is_marked(marks: &[bool], router: u32) -> bool
    ensures { IsTrue result ↔ IsMarked marks.now router }
{
    marks.get(router as usize).copied().unwrap_or(false)
}

/// A router that is reached, and not done.
fn first_open(reached: &[bool], done: &[bool]) -> Option<u32>
    requires { length reached.now < 2 ^ 32 }
    ensures { MatchOption result ((u : ℕ) → IsUnvisited reached.now done.now u → ⊥) (IsUnvisited reached.now done.now) }
{
    for router in 0..reached.len() as u32 {
        if is_marked(reached, router) && !is_marked(done, router) {
            return Some(router);
        }
    }
    None
}

/// The lowest router that isn't marked.
fn lowest_unmarked(marks: &[bool]) -> Option<u32>
    requires { length marks.now < 2 ^ 32 }
    ensures { MatchOption result ((v : ℕ) → v < length marks.now → IsMarked marks.now v) (IsLowestUnmarked marks.now) }
{
    for router in 0..marks.len() as u32 {
        if !is_marked(marks, router) {
            return Some(router);
        }
    }
    None
}
