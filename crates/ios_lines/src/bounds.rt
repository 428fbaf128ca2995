/// The greatest reference bandwidth, in Mbit/s.
pub(crate) const MOST_REFERENCE: u32 = 4294967;

/// The reference bandwidth where the configuration says none, in Mbit/s.
pub const DEFAULT_REFERENCE: u32 = 100;

/// The greatest bandwidth of an interface, in kbit/s.
pub(crate) const MOST_BANDWIDTH: u32 = 1000000000;

/// The metric of an IS-IS interface where the configuration says none.
pub const DEFAULT_METRIC: u32 = 10;
