/// What a wave list ranks.
#[derive(Clone, Copy, Debug, PartialEq, Eq)]
pub enum Items {
    /// Routers: in its wave a router makes the changes that it hasn't made at the start.
    Routers,
    /// Single changes: change c of router u is the number 2u + c - 1.
    Changes,
}
