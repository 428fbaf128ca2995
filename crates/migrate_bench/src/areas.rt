use net_model::{Interface, Net};
use std::alloc::{AllocError, Global};

/// The areas that the routers of a network are in, each once.
pub fn areas_of(alloc: Global, net: &Net) -> Result<Vec<u32>, AllocError> {
    let mut areas = Vec::new(alloc);
    for u in 0..net.routers() {
        add_areas(&mut areas, net.config(u).interfaces.as_slice())?;
    }
    Ok(areas)
}

/// Adds the areas in which the interfaces run.
fn add_areas(areas: &mut Vec<u32>, interfaces: &[Interface]) -> Result<(), AllocError> {
    for interface in interfaces.iter().filter(|i| i.up) {
        if let Some(area) = interface.area
            && !areas.contains(&area)
        {
            areas.push(area)?;
        }
    }
    Ok(())
}
