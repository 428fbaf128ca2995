/// The version of an order file, told by its first line.
#[derive(Clone, Copy, Debug, PartialEq, Eq)]
pub enum Version {
    /// `order 1`: each line is the name of a router, and each wave has one router.
    One = 1,
    /// `order 2`: each line is a wave of one router or several, and a last one may be the chain.
    Two = 2,
}
