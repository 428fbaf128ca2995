ghost use Rattle.std.specs.Prelude.{◌≡◌, ◌+◌, ◌<◌, ◌↔◌, length, IfOk, OnOk, IsTrue};
ghost use Rattle.std.specs.Bool.{OnFalse};
ghost use Rattle.std.specs.List.Sorted.{IsNonDecreasingBy};
ghost use Rattle.zone_graph.specs.Segments.{AreZoneSegments};
ghost use Rattle.zone_graph.specs.steps.Attachments.{AreOfOneSegment, ArePortsLike, AreTheSegments};
ghost use Rattle.zone_graph.specs.steps.Runs.{HasEarlier, IsRunEnd, AreSegmentsTo};

use crate::OutOfMemory;
use crate::attachments::{Attachment, all_attachments, sort_by_base};
use net_model::{Net, Zone};
use std::alloc::Global;
use walk_core::{Port, Segment};

/// The segments of a zone: one for each subnet that joins routers there, with a port for each of their interfaces.
pub fn zone_segments(alloc: Global, net: &Net, zone: Zone) -> Result<Vec<Segment>, OutOfMemory>
    ensures { IfOk result (λ segments. AreZoneSegments net.now zone segments.items) }
{
    let mut attachments = all_attachments(alloc, net, zone)?;
    sort_by_base(&mut attachments)?;
    let segments = segments_of(alloc, attachments.as_slice())?;
    Ok(segments)
}

/// The segments that attachments make, which stand in the order of their subnets' addresses.
fn segments_of(alloc: Global, attachments: &[Attachment]) -> Result<Vec<Segment>, OutOfMemory>
    requires { IsNonDecreasingBy (λ a. a.link.subnet.base) attachments.now }
    ensures { IfOk result (λ segments. AreTheSegments attachments.now segments.items) }
{
    let mut all = Vec::new(alloc);
    for place in 0..attachments.len() {
        if is_first(attachments, place) {
            push_segment(alloc, &mut all, attachments, place)?;
        }
    }
    Ok(all)
}

/// Adds the segment of the attachment of a place, unless it joins nothing.
fn push_segment(
    alloc: Global,
    segments: &mut Vec<Segment>,
    attachments: &[Attachment],
    place: usize,
) -> Result<(), OutOfMemory>
    requires place { place < length attachments.now }
    requires sorted { IsNonDecreasingBy (λ a. a.link.subnet.base) attachments.now }
    requires before { AreSegmentsTo attachments.now place segments.old.items }
    ensures { OnOk result (AreSegmentsTo attachments.now (place + 1) segments.new.items) }
{
    let end = run_end(attachments, place);
    let ports = ports_like(alloc, &attachments[place..end], &attachments[place])?;
    if ports.len() > 1 {
        segments.push(Segment::from_vec(ports))?;
    }
    Ok(())
}

/// Where the attachments end whose subnets begin as that of a place does.
fn run_end(attachments: &[Attachment], place: usize) -> usize
    requires { place < length attachments.now }
    ensures { IsRunEnd attachments.now place result }
{
    let mut end = place + 1;
    while end < attachments.len() && begin_alike(&attachments[place], &attachments[end]) {
        end += 1;
    }
    end
}

/// The ports of the attachments that are of one segment with another.
fn ports_like(
    alloc: Global,
    attachments: &[Attachment],
    like: &Attachment,
) -> Result<Vec<Port>, OutOfMemory>
    ensures { IfOk result (λ ports. ArePortsLike attachments.now like.now ports.items) }
{
    let mut ports = Vec::new(alloc);
    for attachment in attachments {
        if are_of_one_segment(attachment, like) {
            ports.push(Port {
                vertex: attachment.router,
                cost: attachment.link.cost,
            })?;
        }
    }
    Ok(ports)
}

/// Whether no earlier attachment is of one segment with that of a place. It looks back as far as subnets begin alike.
fn is_first(attachments: &[Attachment], place: usize) -> bool
    requires { place < length attachments.now }
    ensures { OnFalse result (HasEarlier attachments.now place) }
{
    let mut other = place;
    while other > 0 {
        other -= 1;
        if are_of_one_segment(&attachments[other], &attachments[place]) {
            return false;
        }
        if !begin_alike(&attachments[other], &attachments[place]) {
            return true;
        }
    }
    true
}

/// Whether the subnets of two attachments begin with the same address.
fn begin_alike(one: &Attachment, two: &Attachment) -> bool
    ensures { IsTrue result ↔ (one.now.link.subnet.base ≡ two.now.link.subnet.base) }
{
    one.link.subnet.base() == two.link.subnet.base()
}

/// Whether two attachments have the same subnet and the same group.
fn are_of_one_segment(one: &Attachment, two: &Attachment) -> bool
    ensures { IsTrue result ↔ AreOfOneSegment one.now two.now }
{
    one.link.subnet == two.link.subnet && one.group == two.group
}
