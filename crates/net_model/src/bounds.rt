/// The greatest cost of an OSPF path, of a range and of a default route: one below 16777215, the cost that stands for
/// unreachable (RFC 2328, appendix B, `LSInfinity`).
pub const MOST_COST: u32 = 16777214;

/// The greatest OSPF cost of sending on an interface (RFC 2328, appendix C.3).
pub const MOST_INTERFACE_COST: u32 = 65535;

/// The greatest number of an OSPF process.
pub const MOST_PROCESS: u32 = 65535;

/// The greatest wide metric of an IS-IS interface that routes go over (RFC 5305, section 3).
pub const MOST_METRIC: u32 = 16777214;

/// The greatest metric of an IS-IS path (RFC 5305, section 3, `MAX_PATH_METRIC`).
pub const MOST_PATH_METRIC: u32 = 4261412864;

/// The administrative distance of OSPF where the configuration says none.
pub const OSPF_DISTANCE: u8 = 110;

/// The administrative distance of IS-IS where it installs its routes.
pub const ISIS_DISTANCE: u8 = 115;

/// The greatest administrative distance, at which a protocol installs nothing.
pub const MOST_DISTANCE: u8 = 255;

/// The most routers of a network.
pub const MOST_ROUTERS: usize = 200;

/// The most up interfaces of a network, of all routers together.
pub const MOST_UP_INTERFACES: usize = 2000;

/// The most distinct prefixes that the configurations of a network name.
pub const MOST_DESTS: usize = 4096;
