ghost use Rattle.std.specs.Prelude.{◌≡◌, ◌<◌, ◌≤◌};
ghost use Rattle.sample_network.specs.SampleLinks.{sample_cost, link_before, loopback, sample_metric, near_end, far_end};

/// The loopbacks are 10.0.0.0 and the number of a router.
const LOOPBACKS: u32 = 0x0a00_0000;

/// The subnets of the links begin at 10.1.0.0.
const SUBNETS: u32 = 0x0a01_0000;

/// The address of the loopback of a router.
pub(crate) fn loopback(router: u32) -> u32
    requires { router < 256 }
    ensures { result ≡ loopback router }
{
    LOOPBACKS + router
}

/// The address on a link of the router that it is numbered after.
pub(crate) fn near_end(link: u32) -> u32
    requires { link < 256 }
    ensures { result ≡ near_end link }
{
    SUBNETS + 256 * link + 1
}

/// The address on a link of the next router.
pub(crate) fn far_end(link: u32) -> u32
    requires { link < 256 }
    ensures { result ≡ far_end link }
{
    SUBNETS + 256 * link + 2
}

/// The link between a router and the one before it.
pub(crate) fn link_before(routers: u32, router: u32) -> u32
    requires first { 1 ≤ router }
    requires last { router ≤ routers }
    ensures link { result ≡ link_before routers router }
    ensures within { result ≤ routers }
{
    if router == 1 { routers } else { router - 1 }
}

/// The OSPF cost of a link, at both of its ends.
pub(crate) fn cost_of(routers: u32, link: u32) -> u32
    ensures { result ≡ sample_cost routers link }
{
    if link == routers { 1000 } else { 1 }
}

/// The IS-IS metric of a link, at both of its ends.
pub(crate) fn metric_of(routers: u32, link: u32) -> u32
    ensures { result ≡ sample_metric routers link }
{
    if link == routers / 2 { 10_000 } else { 10 }
}
