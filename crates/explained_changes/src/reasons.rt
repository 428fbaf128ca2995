ghost use Rattle.std.specs.Prelude.{◌≤◌, IfOk, length};
ghost use Rattle.change_orders.specs.TwoFiles.{AreTwoWaves};
ghost use Rattle.rib_mix.specs.Mixture.{migration_of};
ghost use Rattle.explained_changes.specs.ChangeReasons.{AreSoundChanges};
ghost use Rattle.explained_changes.specs.ChangeReasonTexts.{IsChangeReasonsText};

use crate::OutOfMemory;
use crate::earlier::EarlierChanges;
use net_addr::Bytes;
use order_core::Waves;
use printed_lines::TextBuilder;
use rib_mix::Mixed;
use route_core::RouteSource;
use std::alloc::Global;

/// What is told of the single changes of a wave list that the migration is sound throughout: of each behind the first wave why it
/// isn't one wave earlier, or that it may be. The only error is want of memory.
pub fn change_reasons_text<O: RouteSource, N: RouteSource>(
    alloc: Global,
    mixed: &Mixed<'_, O, N>,
    waves: &Waves,
) -> Result<Bytes, OutOfMemory>
    requires few { length mixed.now.net ≤ 1000 }
    requires waves { AreTwoWaves (length mixed.now.net) waves.now }
    requires sound { AreSoundChanges (migration_of O.table N.table mixed.now) waves.now }
    ensures { IfOk result (IsChangeReasonsText (migration_of O.table N.table mixed.now) waves.now) }
{
    let mut list = EarlierChanges::new(alloc, mixed, waves.ranks())?;
    let mut text = TextBuilder::new(alloc);
    for item in waves.flat() {
        text = list.with_told(alloc, text, *item)?;
    }
    Ok(text.finish())
}
