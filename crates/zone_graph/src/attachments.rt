ghost use Rattle.std.specs.Prelude.{◌<◌, ◌↔◌, length, Contains, IfOk, OnOk};
ghost use Rattle.std.specs.List.Sorted.{IsNonDecreasingBy};
ghost use Rattle.zone_graph.specs.declared.attachments.Attachment.{Attachment};
ghost use Rattle.zone_graph.specs.steps.Attachments.{AddsLinks, AreAttachments, IsGroup};
ghost use Rattle.net_model.specs.Refusals.{IsNetwork};
ghost use Rattle.zone_graph.specs.steps.LinkLists.{AreRouterLinks};

use crate::OutOfMemory;
use crate::links::{Link, Links};
use net_model::{Net, Zone, may_join};
use std::alloc::Global;

/// A link of a router, and the routers that it may be joined with: those of the same group.
#[derive(Clone, Copy, Debug)]
pub(crate) struct Attachment {
    pub(crate) link: Link,
    pub(crate) group: u32,
    pub(crate) router: u32,
}

/// The links of all routers.
pub(crate) fn all_attachments(
    alloc: Global,
    net: &Net,
    zone: Zone,
) -> Result<Vec<Attachment>, OutOfMemory>
    ensures exact { IfOk result (λ all. AreAttachments net.now zone (length net.now) all.items) }
    ensures network { IsNetwork net.now }
{
    let mut all = Vec::new(alloc);
    for router in 0..net.routers() {
        let links = links_of(alloc, net, zone, router)?;
        push_links(
            &mut all,
            links.as_slice(),
            group_of(net, zone, router),
            router,
        )?;
    }
    Ok(all)
}

/// Puts them in the order of the addresses with which their subnets begin. Those of one subnet stay in the order of their
/// routers, so that the segments of a network without a link are those of the whole one, but for the link's.
pub(crate) fn sort_by_base(attachments: &mut Vec<Attachment>) -> Result<(), OutOfMemory>
    ensures kept { OnOk result ((a : Attachment) → Contains attachments.new.items a ↔ Contains attachments.old.items a) }
    ensures sorted { OnOk result (IsNonDecreasingBy (λ a. a.link.subnet.base) attachments.new.items) }
{
    Ok(attachments.sort_by_key(|attachment| attachment.link.subnet.base())?)
}

/// The links of a router.
fn links_of(alloc: Global, net: &Net, zone: Zone, router: u32) -> Result<Links, OutOfMemory>
    requires { router < length net.now }
    ensures { IfOk result (AreRouterLinks net.now zone router) }
{
    let config = net.config(router);
    let links = Links::among(alloc, zone, config.interfaces.as_slice())?;
    Ok(links)
}

/// Adds the links of a router.
fn push_links(
    attachments: &mut Vec<Attachment>,
    links: &[Link],
    group: u32,
    router: u32,
) -> Result<(), OutOfMemory>
    ensures { OnOk result (AddsLinks attachments.old.items attachments.new.items links.now group router) }
{
    for link in links {
        attachments.push(Attachment {
            link: *link,
            group,
            router,
        })?;
    }
    Ok(())
}

/// The group of a router: the first router that the zone may join with it (level 1 joins the routers of one IS-IS area).
fn group_of(net: &Net, zone: Zone, router: u32) -> u32
    requires { router < length net.now }
    ensures { IsGroup net.now zone router result }
{
    let own = net.config(router);
    for other in 0..router {
        if may_join(zone, net.config(other), own) {
            return other;
        }
    }
    router
}
