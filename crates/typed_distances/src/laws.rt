ghost use Rattle.typed_distances.specs.TypedDistances.{DistancesTellPhases, ReadAreasHaveProcesses, TablesReadNoDistances};
ghost use Rattle.typed_distances.specs.TypedTexts.{TypedTextsForward};

/// The law that the tables of two networks which differ in distances alone are the same, of either protocol.
pub fn tables_read_no_distances()
    ensures { TablesReadNoDistances }
{}

/// The law that a router that was read from a text has an OSPF process where an interface of it runs OSPF.
pub fn read_areas_have_processes()
    ensures { ReadAreasHaveProcesses }
{}

/// The law that in each state of a migration a router uses, by the distances of its configuration in that state alone, what the
/// definition of forwarding says by its phase.
pub fn distances_tell_phases()
    ensures { DistancesTellPhases }
{}

/// The law that the texts of the configurations, with the lines of the changes made by then put before their `end` lines, read as a
/// network each of whose routers uses, by its distances alone, what the definition of forwarding says of its phase.
pub fn typed_texts_forward()
    ensures { TypedTextsForward }
{}
