use walk_core::Offer;

/// What decides the routes of all routers of a lane for a prefix, but of those that make the offers or are excepted.
#[derive(Clone, Copy, Debug)]
pub enum Decision {
    /// Nothing: they have no entry.
    Nothing,
    /// Nothing either, but of these two routers, which may be one, it isn't known.
    NothingBut(u32, u32),
    /// The offer of this router.
    One(u32),
    /// The better of two offers, or both where they cost the same.
    Two(Offer, Offer),
    /// It isn't known at once.
    Unknown,
}

/// What decides the routes of the routers of a lane that make and reach none of the offers of a first decision, which they
/// would reach over the lane's zone.
#[derive(Clone, Copy, Debug)]
pub struct Behind {
    /// The first decision. Where it is that there is nothing, no offers come first.
    pub first: Decision,
    /// What decides then, over the zone behind.
    pub second: Decision,
}
