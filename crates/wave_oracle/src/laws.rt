ghost use Rattle.wave_oracle.specs.ReadingBack.{ChainsAreTagged, ChangeChainsAreTagged, PlannedTextsReadBack, PlansArePrintable};

use igp_theory::AnyMigration;

/// The law that what the search finds of a network has a text: it speaks of the network's routers, and the chain of
/// waves has one router of each.
pub fn plans_are_printable<T: AnyMigration>()
    ensures { PlansArePrintable T.migration }
{}

/// The law that the text of a plan reads back.
///
/// The text of planned waves is an order file that names these waves, and the migration is sound throughout them; that of a
/// refutation is a closed tree; that of a tree where the budget was spent has unvisited places. Each reads so in one way only.
pub fn planned_texts_read_back<T: AnyMigration>()
    ensures { PlannedTextsReadBack T.migration }
{}

/// The law that each two neighbors of the chain of planned waves are tagged `Old` and `New` in one loop of the network.
///
/// In that loop the first of them has to be switched before the second, unless another router tagged `Old` is switched
/// before another one tagged `New`.
///
/// Of single changes the two may also be those of one router, and a turn of the loop names the change at which its router
/// switches the address.
pub fn chains_are_tagged<T: AnyMigration>()
    ensures routers { ChainsAreTagged T.migration }
    ensures changes { ChangeChainsAreTagged T.migration }
{}
