ghost use Rattle.std.specs.Prelude.{◌≡◌, IfOk, length};
ghost use Rattle.explained_waves.specs.Reasons.{AreSoundRanks};
ghost use Rattle.rib_mix.specs.Mixture.{migration_of};
ghost use Rattle.explained_texts.specs.ReasonTexts.{IsReasonsText};

use crate::OutOfMemory;
use crate::earlier::EarlierList;
use net_addr::Bytes;
use order_core::Waves;
use printed_lines::TextBuilder;
use rib_mix::Mixed;
use route_core::RouteSource;
use std::alloc::Global;

/// What is told of the routers of a wave list that the migration is sound throughout: of each behind the first wave why it isn't
/// one wave earlier, or that it may be. The only error is want of memory.
pub fn reasons_text<O: RouteSource, N: RouteSource>(
    alloc: Global,
    mixed: &Mixed<'_, O, N>,
    waves: &Waves,
) -> Result<Bytes, OutOfMemory>
    requires routers { length waves.now ≡ length mixed.now.net }
    requires sound { AreSoundRanks (migration_of O.table N.table mixed.now) waves.now }
    ensures { IfOk result (IsReasonsText (migration_of O.table N.table mixed.now) waves.now) }
{
    let mut list = EarlierList::new(alloc, mixed, waves.ranks())?;
    let mut text = TextBuilder::new(alloc);
    for router in waves.flat() {
        text = list.with_told(alloc, text, *router)?;
    }
    Ok(text.finish())
}
