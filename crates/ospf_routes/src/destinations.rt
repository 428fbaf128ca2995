ghost use Rattle.std.specs.Prelude.{◌≡◌, All, IfOk};
ghost use Rattle.ospf_routes.specs.Lists.{Exactly};
ghost use Rattle.ospf_routes.specs.steps.Areas.{AreAreas};
ghost use Rattle.ospf_routes.specs.steps.Destinations.{AreOspfDestinations, IsDestinationIn, ospf_prefixes};
ghost use Rattle.ospf_routes.specs.steps.Subnets.{IsUpSubnet};

use crate::OutOfMemory;
use crate::candidates::candidates_of;
use crate::domain::Domain;
use crate::intra_area::Destination;
use crate::subnets::Subnets;
use net_addr::Prefix;
use std::alloc::Global;

/// Each prefix that may have an entry, with what the interfaces of each area offer of it.
pub(crate) fn destinations(
    alloc: Global,
    domain: &Domain<'_>,
) -> Result<Vec<Destination>, OutOfMemory>
    ensures { IfOk result (λ all. AreOspfDestinations domain.now all.items) }
{
    let subnets = Subnets::of_network(alloc, domain.net())?;
    let dests = candidates_of(alloc, domain.net(), &subnets)?;
    each_destination(alloc, domain, &subnets, dests.as_slice())
}

/// Each of these prefixes, with what the interfaces of each area offer of it. It takes time of the prefixes, and of the
/// logarithm of the subnets.
fn each_destination(
    alloc: Global,
    domain: &Domain<'_>,
    subnets: &Subnets,
    dests: &[Prefix],
) -> Result<Vec<Destination>, OutOfMemory>
    requires areas { AreAreas domain.now.net domain.now.areas }
    requires subnets { Exactly (IsUpSubnet domain.now.net) subnets.now }
    ensures dests { IfOk result (λ all. ospf_prefixes all.items ≡ dests.now) }
    ensures each { IfOk result (λ all. All (IsDestinationIn domain.now) all.items) }
{
    let mut all = Vec::new(alloc);
    let mut routes = Vec::new(alloc);
    for dest in dests {
        all.push(Destination::build(alloc, domain, subnets, *dest, &mut routes)?)?;
    }
    Ok(all)
}
