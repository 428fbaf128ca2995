/// A child that waits to be visited: it assumes that one router comes before another, besides the first
/// pairs of those that are assumed now.
#[derive(Clone, Copy)]
pub(crate) struct Child {
    pub(crate) before: u32,
    pub(crate) after: u32,
    pub(crate) above: u32,
}
