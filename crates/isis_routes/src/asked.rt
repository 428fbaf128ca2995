use crate::destinations::Destination;
use crate::domain::Domain;

/// A router and a prefix whose route is asked for, with what is known of both.
#[derive(Clone, Copy)]
pub(crate) struct Asked<'a> {
    /// The network.
    pub domain: &'a Domain<'a>,
    /// What is offered and announced of the prefix.
    pub destination: &'a Destination,
    /// The router.
    pub router: u32,
}
