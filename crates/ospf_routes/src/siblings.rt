ghost use Rattle.std.specs.Prelude.{◌≡◌, ◌+◌, [], IfOk, IfSome, OnOk};
ghost use Rattle.route_tables.specs.Prefixes.{prefix_at};
ghost use Rattle.ospf_routes.specs.steps.Destinations.{ospf_prefixes};
ghost use Rattle.ospf_routes.specs.steps.Heard.{IsLeaving};
ghost use Rattle.ospf_routes.specs.steps.Ranges.{HoldRanges};
ghost use Rattle.ospf_routes.specs.steps.Siblings.{AddsSibling, AreKnownSiblings, HasOneArea, IsAlikeSibling, IsEarlierSibling, IsOfOneArea};

use crate::OutOfMemory;
use crate::area_boundary::{Boundary, Leaving};
use crate::intra_area::Destination;
use crate::latest::{Latest, number_of_announcer};
use route_tables::{are_alike, is_all_addresses};
use std::alloc::Global;
use std::marker::Model;
use walk_core::Offer;

/// A prefix of one area other than the backbone, and what of it is announced into the backbone.
#[derive(Debug, Drop)]
struct Sibling {
    /// The place of the prefix.
    place: usize,
    /// The area.
    area: u32,
    /// What is announced of it into the backbone.
    backbone: Vec<Offer>,
}

/// Prefixes of one area each, none of which is announced as an earlier one is but for a constant, as far as is found: the latest
/// of those that the same router announces first.
#[derive(Debug, Drop)]
pub(crate) struct Siblings {
    latest: Latest,
    known: Vec<Sibling>,
}

impl Model for Siblings {
    ghost use Rattle.std.specs.Prelude.{List};
    ghost use Rattle.ospf_routes.specs.declared.siblings.Sibling.{Sibling};

    ghost Value = { List Sibling };

    ghost view = { λ x. x.known.items };
}

impl Siblings {
    /// None yet, of a network of so many routers.
    pub fn none(alloc: Global, routers: usize) -> Result<Siblings, OutOfMemory>
        ensures { IfOk result (λ siblings. siblings ≡ []) }
    {
        let latest = Latest::none(alloc, routers)?;
        let known = Vec::new(alloc);
        Ok(Siblings { latest, known })
    }

    /// The place of a prefix that is known as a sibling of that at a place: both are of one area, and announced alike into the
    /// backbone, so they are announced alike into every area. Where none is found, this one is known from now on, if it is of
    /// one area.
    pub fn earlier(
        &mut self,
        alloc: Global,
        boundary: Boundary<'_>,
        leaving: Leaving<'_>,
        place: usize,
    ) -> Result<Option<usize>, OutOfMemory>
        requires ranged { HoldRanges boundary.domain.now.net boundary.ranged.now }
        requires leaving { IsLeaving boundary.domain.now leaving }
        requires place { leaving.destination.now.dest ≡ prefix_at (ospf_prefixes boundary.destinations.now) place }
        requires known { AreKnownSiblings boundary.domain.now.net (ospf_prefixes boundary.destinations.now) place self.old }
        ensures known { OnOk result (AreKnownSiblings boundary.entry.domain.now.net (ospf_prefixes boundary.entry.destinations.now)
            (place + 1) self.new) }
        ensures sibling { IfOk result (λ found. IfSome found (IsEarlierSibling boundary.entry.domain.now.net
            (ospf_prefixes boundary.entry.destinations.now) place)) }
    {
        let Some(area) = area_alone(boundary, leaving) else {
            return Ok(None);
        };
        let found = self.alike(area, leaving.backbone);
        if found.is_none() {
            self.note(alloc, place, area, leaving.backbone)?;
        }
        Ok(found)
    }

    /// The place of a known prefix of an area that is announced into the backbone like these offers.
    fn alike(&self, area: u32, backbone: &[Offer]) -> Option<usize>
        ensures { IfSome result (IsAlikeSibling self.now area backbone.now) }
    {
        let index = self.latest.noted(number_of_announcer(backbone))?;
        let known = self.known.get(index)?;
        if known.area != area {
            return None;
        }
        if are_alike(known.backbone.as_slice(), backbone) {
            Some(known.place)
        } else {
            None
        }
    }

    /// From now on the prefix at a place is known, which is of an area and announced so into the backbone.
    fn note(
        &mut self,
        alloc: Global,
        place: usize,
        area: u32,
        offers: &[Offer],
    ) -> Result<(), OutOfMemory>
        ensures { OnOk result (AddsSibling place area offers.now self.old self.new) }
    {
        let backbone = Vec::from_slice(alloc, offers)?;
        self.latest
            .replace(number_of_announcer(offers), self.known.len());
        self.known.push(Sibling {
            place,
            area,
            backbone,
        })?;
        Ok(())
    }
}

/// The one area that the prefix is offered in, where there are no active ranges and it isn't the prefix of all addresses. The
/// backbone doesn't count.
fn area_alone(boundary: Boundary<'_>, leaving: Leaving<'_>) -> Option<u32>
    requires ranged { HoldRanges boundary.domain.now.net boundary.ranged.now }
    requires leaving { IsLeaving boundary.domain.now leaving }
    ensures { IfSome result (IsOfOneArea boundary.entry.domain.now.net leaving.entry.destination.now.dest) }
{
    if !boundary.ranged.is_empty() {
        return None;
    }
    if is_all_addresses(leaving.destination.dest) {
        return None;
    }
    only_area(leaving.destination)
}

/// The one area that the prefix is offered in, unless that is the backbone.
fn only_area(destination: &Destination) -> Option<u32>
    ensures { IfSome result (HasOneArea destination.now) }
{
    let parts = destination.parts.as_slice();
    if parts.len() != 1 {
        return None;
    }
    let area = parts[0].area;
    if area == 0 { None } else { Some(area) }
}
