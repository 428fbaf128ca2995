ghost use Rattle.net_addr.specs.Boundaries.{BoundaryLaw};

/// The law that addresses fall into classes between the boundaries of prefixes.
///
/// Take addresses a and b with a at most b, and a list of prefixes. Where none of them has its base, or the number
/// after its last address, above a and at most b, the same of them contain a and b.
pub fn boundary_law()
    ensures { BoundaryLaw }
{}
