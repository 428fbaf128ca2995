ghost use Rattle.std.specs.Prelude.{◌≡◌, ◌≢◌, ◌≤◌, [], ◌∷◌, All, AllPairs, IfOk};
ghost use Rattle.net_model.specs.Configuration.{IsInterface};

use net_addr::{Name, Prefix};
use net_model::{Interface, Interfaces, Levels};
use std::alloc::{AllocError as OutOfMemory, Global};

/// An interface by its name of one byte, and its address with the length of its prefix.
#[derive(Clone, Copy)]
pub(crate) struct Addressed {
    pub name: u8,
    pub address: u32,
    pub len: u8,
}

/// An interface of an area: of length 32 a loopback, of length 24 passive.
pub(crate) fn ospf_interface(
    alloc: Global,
    at: Addressed,
    area: Option<u32>,
    cost: u32,
) -> Result<Interface, OutOfMemory>
    requires short { at.len ≤ 32 }
    requires some { 1 ≤ cost }
    requires most { cost ≤ 65535 }
    ensures kept { IfOk result IsInterface }
    ensures named { IfOk result (λ i. i.name ≡ at.name ∷ []) }
{
    let Addressed { name, address, len } = at;
    let name = Name::from_vec(Vec::from_slice(alloc, &[name])?);
    Ok(Interface {
        name,
        address,
        subnet: Prefix::around(address, len),
        up: true,
        loopback: len == 32,
        area,
        cost,
        ospf_passive: len == 24,
        level1: false,
        level2: false,
        metric1: 10,
        metric2: 10,
        isis_passive: false,
    })
}

/// An interface of these levels, of which a prefix of length 32 makes a loopback.
pub(crate) fn isis_interface(
    alloc: Global,
    at: Addressed,
    metric: u32,
    levels: Levels,
) -> Result<Interface, OutOfMemory>
    requires short { at.len ≤ 32 }
    requires some { 1 ≤ metric }
    requires most { metric ≤ 16777214 }
    ensures kept { IfOk result IsInterface }
    ensures named { IfOk result (λ i. i.name ≡ at.name ∷ []) }
{
    let Addressed { name, address, len } = at;
    let name = Name::from_vec(Vec::from_slice(alloc, &[name])?);
    Ok(Interface {
        name,
        address,
        subnet: Prefix::around(address, len),
        up: true,
        loopback: len == 32,
        area: None,
        cost: 1,
        ospf_passive: false,
        level1: levels != Levels::Two,
        level2: levels != Levels::One,
        metric1: metric,
        metric2: metric,
        isis_passive: false,
    })
}

/// One interface.
pub(crate) fn one_interface(alloc: Global, interface: Interface) -> Result<Interfaces, OutOfMemory>
    requires { IsInterface interface }
    ensures kept { IfOk result (All IsInterface) }
    ensures apart { IfOk result (AllPairs (λ i j. i.name ≢ j.name)) }
{
    let mut all = Vec::new(alloc);
    all.push(interface)?;
    Ok(Interfaces::from_vec(all))
}

/// Three interfaces, which are named 0, 1 and 2.
pub(crate) fn three_interfaces(
    alloc: Global,
    zero: Interface,
    one: Interface,
    two: Interface,
) -> Result<Interfaces, OutOfMemory>
    requires kept { IsInterface zero × IsInterface one × IsInterface two }
    requires zero { zero.name ≡ 0 ∷ [] }
    requires one { one.name ≡ 1 ∷ [] }
    requires two { two.name ≡ 2 ∷ [] }
    ensures kept { IfOk result (All IsInterface) }
    ensures apart { IfOk result (AllPairs (λ i j. i.name ≢ j.name)) }
{
    let mut all = Vec::new(alloc);
    all.push(zero)?;
    all.push(one)?;
    all.push(two)?;
    Ok(Interfaces::from_vec(all))
}
