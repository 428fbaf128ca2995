use crate::part::Part;
use crate::pieces::Pieces;
use crate::watch::Places;
use rib_mix::Mixed;
use route_core::RouteSource;

/// What a finder searches.
#[derive(Drop)]
pub(crate) struct Subject<'a, O: RouteSource, N: RouteSource> {
    /// Mixed forwarding.
    pub mixed: &'a Mixed<'a, O, N>,
    /// The parts of the classes for which some state may be unsound.
    pub parts: Vec<Part<'a>>,
    /// The pieces of which they are made.
    pub pieces: Pieces<'a>,
    /// For each router the parts that a change of it may make unsound.
    pub watch: Vec<Places>,
}
