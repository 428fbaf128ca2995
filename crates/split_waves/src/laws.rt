ghost use Rattle.split_waves.specs.Cuts.{CutsRefine};
ghost use Rattle.split_waves.specs.Refinements.{RefinementsAreSeamless, RefinementsHaveNoOtherStates};

use igp_theory::AnyMigration;

/// The law that the states of a refinement are among those of the list, so that each refinement of a seamless list is seamless.
pub fn refinements_are_seamless<T: AnyMigration>()
    ensures states { RefinementsHaveNoOtherStates T.migration }
    ensures seamless { RefinementsAreSeamless T.migration }
{}

/// The law that a list whose waves are cut refines the one that it was cut from, and that no wave is greater than asked for.
pub fn cuts_refine()
    ensures { CutsRefine }
{}
