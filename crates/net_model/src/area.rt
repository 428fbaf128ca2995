ghost use Rattle.std.specs.Prelude.{◌≡◌};

use net_addr::Prefix;
use std::marker::Model;

/// A range of an OSPF area, as a border router summarizes it (RFC 2328, section 12.4.3).
#[derive(Clone, Copy, Debug)]
pub struct Range {
    /// The area whose prefixes the range summarizes.
    pub area: u32,
    /// The prefix that is announced in their place.
    pub dest: Prefix,
    /// Whether the range is announced.
    pub advertise: bool,
    /// The cost that it is announced at, at most `MOST_COST`, where the configuration says one.
    pub cost: Option<u32>,
}

/// The ranges of a router, in the order of its configuration.
#[derive(Debug, Drop)]
pub struct Ranges {
    all: Vec<Range>,
}

impl Model for Ranges {
    ghost use Rattle.std.specs.Prelude.{List};
    ghost use Rattle.net_model.specs.declared.area.Range.{Range};

    ghost Value = { List Range };

    ghost view = { λ x. x.all.items };
}

impl Ranges {
    /// The ranges of a vector, in its order.
    pub fn from_vec(all: Vec<Range>) -> Ranges
        ensures { result ≡ all.items }
    {
        Ranges { all }
    }

    /// The ranges as a slice.
    pub fn as_slice(&self) -> &[Range]
        ensures { result.now ≡ self.now }
    {
        self.all.as_slice()
    }

    /// The vector that the ranges stand in.
    pub fn into_vec(self) -> Vec<Range>
        ensures { result.items ≡ self }
    {
        self.all
    }
}

/// What a router's configuration says of a stub area (RFC 2328, section 3.6).
#[derive(Clone, Copy, Debug)]
pub struct Stub {
    /// The area, never the backbone.
    pub area: u32,
    /// Whether a border router announces its default route alone into the area.
    pub no_summary: bool,
    /// The cost of that default route, at most `MOST_COST`.
    pub default_cost: u32,
}

/// The stub areas of a router, in the order of its configuration.
#[derive(Debug, Drop)]
pub struct Stubs {
    all: Vec<Stub>,
}

impl Model for Stubs {
    ghost use Rattle.std.specs.Prelude.{List};
    ghost use Rattle.net_model.specs.declared.area.Stub.{Stub};

    ghost Value = { List Stub };

    ghost view = { λ x. x.all.items };
}

impl Stubs {
    /// The stub areas of a vector, in its order.
    pub fn from_vec(all: Vec<Stub>) -> Stubs
        ensures { result ≡ all.items }
    {
        Stubs { all }
    }

    /// The stub areas as a slice.
    pub fn as_slice(&self) -> &[Stub]
        ensures { result.now ≡ self.now }
    {
        self.all.as_slice()
    }

    /// The vector that the stub areas stand in.
    pub fn into_vec(self) -> Vec<Stub>
        ensures { result.items ≡ self }
    {
        self.all
    }
}
