ghost use Rattle.igp_theory.specs.WaveLaws.{OspfHopsAreRouters, IsisHopsAreRouters, SoundStatesDeliver};

use crate::migration::AnyMigration;

/// The law that every hop of both protocols' entries is a router of the network.
pub fn hops_are_routers()
    ensures ospf { OspfHopsAreRouters }
    ensures isis { IsisHopsAreRouters }
{}

/// What a sound state means: over any tables whose hops are routers of the network a state is sound exactly
/// where it delivers the packets of every address with a target.
///
/// From every router every list of steps is shorter than the count of routers, and it has reached an
/// originator or can be extended. So each packet reaches an originator, whichever of the equal-cost hops it
/// takes.
pub fn sound_states_deliver<T: AnyMigration>()
    ensures { SoundStatesDeliver T.migration }
{}
