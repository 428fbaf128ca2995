ghost use Rattle.std.specs.Prelude.{◌≡◌, IfOk, IsTrue};
ghost use Rattle.design_file.specs.Values.{is_area};
ghost use Rattle.design_writer.specs.CostDesigns.{HaveTextNames, IsDesignByCosts};

use crate::OutOfMemory;
use crate::tables::document;
use net_addr::Bytes;
use net_model::{Levels, Net};
use std::alloc::Global;

/// The text of a design for a network: of this area and these levels, and in which each interface with an address and an OSPF
/// area has its OSPF cost as its IS-IS metric. The only error is want of memory.
pub fn design_text(
    alloc: Global,
    net: &Net,
    area: &str,
    levels: Levels,
) -> Result<Bytes, OutOfMemory>
    requires area { IsTrue (is_area area.now) }
    requires names { HaveTextNames net.now }
    ensures { IfOk result (IsDesignByCosts area.now levels net.now) }
{
    let document = document(alloc, net, area, levels)?;
    match toml::table_to_string(alloc, &document) {
        Ok(text) => Ok(Bytes::from_vec(text.into_bytes())),
        Err(_) => Err(OutOfMemory),
    }
}
