ghost use Rattle.std.specs.Prelude.{◌≡◌, IfErr, IfOk, map};
ghost use Rattle.net_model.specs.Refusals.{IsNetwork, Refuses};
ghost use Rattle.failed_links.specs.ShutDown.{StandsWithout, shut_down, shut_router};

use crate::OutOfMemory;
use crate::copies::shut_router;
use net_addr::Prefix;
use net_model::{Config, Configs, Net, NetRefusal};
use std::alloc::Global;

/// The network with a link down: its interfaces aren't up, and nothing else differs. Routers keep their numbers.
///
/// It is what `Net::build` makes of the configurations with these interfaces shut down, or why that refuses them.
pub fn without(alloc: Global, net: &Net, link: Prefix) -> Result<Net, NetRefusal>
    ensures ok { IfOk result (λ failed. failed ≡ shut_down link net.now) }
    ensures stands { IfOk result (λ _. StandsWithout net.now link) }
    ensures err { IfErr result (λ refusal. Refuses refusal (shut_down link net.now)) }
{
    let configs = shut_down(alloc, net, link)?;
    Net::build(alloc, configs)
}

/// The configurations of a network, copied, with the interfaces of a link shut down.
fn shut_down(alloc: Global, net: &Net, link: Prefix) -> Result<Configs, OutOfMemory>
    ensures configs { IfOk result (λ configs. configs ≡ shut_down link net.now) }
    ensures network { IsNetwork net.now }
{
    let mut configs = Vec::with_capacity(alloc, net.routers() as usize)?;
    for router in 0..net.routers() {
        configs.push(shut_router(alloc, link, net.config(router))?)?;
    }
    Ok(Configs::from_vec(configs))
}
