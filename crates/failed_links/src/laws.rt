ghost use Rattle.failed_links.specs.DownLaws.{KeepsRouters, KeepsStarts, StandsOrIsRefused};

/// The laws of a network with a link down: routers keep their numbers and names, and are at the start where they were; and it is a
/// network, or refused for one reason.
pub fn down_laws()
    ensures routers { KeepsRouters }
    ensures starts { KeepsStarts }
    ensures decided { StandsOrIsRefused }
{}
