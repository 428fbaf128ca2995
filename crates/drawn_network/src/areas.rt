ghost use Rattle.std.specs.Prelude.{◌≡◌, ◌++◌, IfOk, OnOk};
ghost use Rattle.std.specs.List.{flat_map};
ghost use Rattle.drawn_network.specs.LinkEnds.{AreLinkAreas, LinkEnd, area_listed, areas_along};

use crate::OutOfMemory;
use crate::ends::LinkEnd;
use crate::links::Link;
use std::alloc::Global;

/// The areas of the ends of some links, ascending.
pub(crate) fn link_areas(alloc: Global, links: &[Link<'_>]) -> Result<Vec<u32>, OutOfMemory>
    ensures { IfOk result (λ areas. AreLinkAreas links.now areas.items) }
{
    let mut areas = areas_along(alloc, links)?;
    areas.sort_unstable();
    areas.dedup();
    Ok(areas)
}

/// The same end by end.
fn areas_along(alloc: Global, links: &[Link<'_>]) -> Result<Vec<u32>, OutOfMemory>
    ensures { IfOk result (λ areas. areas.items ≡ areas_along links.now) }
{
    let mut areas = Vec::new(alloc);
    for link in links {
        push_areas(&mut areas, link.ends())?;
    }
    Ok(areas)
}

/// Adds the areas of some ends.
fn push_areas(areas: &mut Vec<u32>, ends: &[LinkEnd<'_>]) -> Result<(), OutOfMemory>
    ensures { OnOk result (areas.new.items ≡ areas.old.items ++ flat_map (λ (e : LinkEnd). area_listed e.interface.area) ends.now) }
{
    for end in ends {
        push_area(areas, end.interface.area)?;
    }
    Ok(())
}

/// Adds an area, if there is one.
fn push_area(areas: &mut Vec<u32>, area: Option<u32>) -> Result<(), OutOfMemory>
    ensures { OnOk result (areas.new.items ≡ areas.old.items ++ area_listed area) }
{
    if let Some(area) = area {
        areas.push(area)?;
    }
    Ok(())
}
