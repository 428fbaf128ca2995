ghost use Rattle.design_writer.specs.Laws.{OneCostDesignLaw, TextNamesLaw};
ghost use Rattle.design_writer.specs.OneAreaDesigns.{CostDesignsAreSound, CostDesignsKeepTables};

/// The laws of designs by costs: a network has one of an area and some levels, and where its configurations are read their names
/// can stand in it.
pub fn cost_design_laws()
    ensures one { OneCostDesignLaw }
    ensures names { TextNamesLaw }
{}

/// The laws of networks of one OSPF area that are prepared with their design by costs at level 2: both protocols give every router
/// the same entries, so every state of the migration is sound where its first one is, and every wave list is seamless then.
pub fn one_area_laws()
    ensures tables { CostDesignsKeepTables }
    ensures sound { CostDesignsAreSound }
{}
