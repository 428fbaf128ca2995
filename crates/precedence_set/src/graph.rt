use link_trail::Links;

/// The assumed pairs of routers, "u before v", and for each router the numbers of the pairs from it, in order.
#[derive(Clone, Copy)]
pub(crate) struct SuccessorGraph<'a> {
    /// For each router the numbers of the pairs from it.
    pub successors: &'a Links,
    /// The pairs.
    pub pairs: &'a [(u32, u32)],
}
