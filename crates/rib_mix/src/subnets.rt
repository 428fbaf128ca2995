ghost use Rattle.std.specs.Prelude.{◌≡◌, ◌<◌, ◌↔◌, Contains, IfOk, IsTrue, length};
ghost use Rattle.rib_mix.specs.Rows.{AreSubnets};

use net_addr::Prefix;
use net_model::Net;
use prefix_atoms::add_connected;
use route_core::OutOfMemory;
use std::alloc::Global;
use std::marker::Model;

/// Prefixes that are connected at a router.
#[derive(Drop)]
pub(crate) struct Subnets {
    all: Vec<Prefix>,
}

impl Model for Subnets {
    ghost use Rattle.std.specs.Prelude.{List};
    ghost use Rattle.net_addr.specs.Addresses.{Block};

    ghost Value = { List Block };

    ghost view = { λ x. x.all.items };
}

impl Subnets {
    /// The prefixes that are connected at a router.
    pub fn of_router(alloc: Global, net: &Net, router: u32) -> Result<Subnets, OutOfMemory>
        requires { router < length net.now }
        ensures { IfOk result (AreSubnets net.now router) }
    {
        let config = net.config(router);
        let interfaces = config.interfaces.as_slice();
        let mut all = Vec::with_capacity(alloc, interfaces.len())?;
        add_connected(&mut all, interfaces)?;
        Ok(Subnets { all })
    }

    /// The prefixes.
    pub fn as_slice(&self) -> &[Prefix]
        ensures { result.now ≡ self.now }
    {
        self.all.as_slice()
    }

    /// Whether a prefix is among them.
    pub fn has(&self, prefix: Prefix) -> bool
        ensures { IsTrue result ↔ Contains self.now prefix }
    {
        is_among(self.all.as_slice(), prefix)
    }
}

/// Whether a prefix is among some.
fn is_among(prefixes: &[Prefix], prefix: Prefix) -> bool
    ensures { IsTrue result ↔ Contains prefixes.now prefix }
{
    prefixes.contains(&prefix)
}
