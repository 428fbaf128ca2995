ghost use Rattle.std.specs.Prelude.{◌≡◌, ◌^◌, ◌<◌, ℕ, length, IfOk, IfSome, MatchOption};
ghost use Rattle.net_model.specs.Least.{IsBest, IsLeastPair, NoneClash};
ghost use Rattle.net_model.specs.Network.{Network};
ghost use Rattle.net_model.specs.Lookups.{IsNamed};
ghost use Rattle.net_model.specs.RouterNames.{IsLeastNamedPair};
ghost use Rattle.net_model.specs.steps.Scans.{IsFirstPartner, IsMutual, NonePartner};

use crate::Config;
use net_addr::Name;
use std::alloc::{AllocError, Global};

/// What no two routers of a network may do.
pub(crate) trait Clash {
    /// What they clash in.
    type Item: Copy + Drop;

    /// Which two routers clash, and in what.
    ghost clash: { Network → ℕ → ℕ → Self.Item → Type 0 };

    /// The order of the items.
    ghost at_most: { Self.Item → Self.Item → Type 0 };

    /// The least item in which two routers clash.
    fn least(configs: &[Config], one: u32, two: u32) -> Option<Self::Item>
        requires one { one < length configs.now }
        requires two { two < length configs.now }
        ensures { IsBest at_most (clash configs.now one two) result };
}

/// Two routers that clash, by their names, and the item in which they do.
#[derive(Drop)]
pub(crate) struct NamedPair<T: Copy + Drop> {
    /// The name of the first router.
    pub one: Name,
    /// The name of the second router.
    pub two: Name,
    /// What they clash in.
    pub item: T,
}

/// Two routers that clash, and the item in which they do.
#[derive(Clone, Copy)]
struct Pair<T: Copy> {
    /// The first router.
    one: u32,
    /// The second router.
    two: u32,
    /// What they clash in.
    item: T,
}

/// The first pair of routers that clash, by their names, with their least item.
pub(crate) fn first_clash<C: Clash>(
    alloc: Global,
    configs: &[Config],
) -> Result<Option<NamedPair<C::Item>>, AllocError>
    requires { length configs.now < 2 ^ 32 }
    ensures { IfOk result (λ found. IsMutual (C.clash configs.now) (length configs.now) → MatchOption found
        (NoneClash (C.clash configs.now))
        (λ p. IsLeastNamedPair C.at_most (C.clash configs.now) configs.now p.one p.two p.item)) }
{
    match first_pair::<C>(configs) {
        Some(pair) => Ok(Some(NamedPair {
            one: name_of(alloc, configs, pair.one)?,
            two: name_of(alloc, configs, pair.two)?,
            item: pair.item,
        })),
        None => Ok(None),
    }
}

/// The name of a router.
pub(crate) fn name_of(alloc: Global, configs: &[Config], router: u32) -> Result<Name, AllocError>
    requires { router < length configs.now }
    ensures { IfOk result (λ name. IsNamed configs.now name router) }
{
    let config = &configs[router as usize];
    let bytes = Vec::from_slice(alloc, config.name.as_slice())?;
    Ok(Name::from_vec(bytes))
}

/// The first pair of routers that clash, with their least item.
fn first_pair<C: Clash>(configs: &[Config]) -> Option<Pair<C::Item>>
    requires { length configs.now < 2 ^ 32 }
    ensures least { IsMutual (C.clash configs.now) (length configs.now) → MatchOption result
        (NoneClash (C.clash configs.now))
        (λ p. IsLeastPair C.at_most (C.clash configs.now) p.one p.two p.item) }
    ensures one { IfSome result (λ p. p.one < length configs.now) }
    ensures two { IfSome result (λ p. p.two < length configs.now) }
{
    for one in 0..configs.len() as u32 {
        if let Some(pair) = first_partner::<C>(configs, one) {
            return Some(pair);
        }
    }
    None
}

/// The first router from `one` on that clashes with `one`, with their least item.
fn first_partner<C: Clash>(configs: &[Config], one: u32) -> Option<Pair<C::Item>>
    requires few { length configs.now < 2 ^ 32 }
    requires within { one < length configs.now }
    ensures partner { MatchOption result
        (NonePartner (C.clash configs.now one) (length configs.now) one)
        (λ p. IsFirstPartner C.at_most (C.clash configs.now one) (length configs.now) one p.two p.item) }
    ensures same { IfSome result (λ p. p.one ≡ one) }
{
    for two in one..configs.len() as u32 {
        if let Some(item) = C::least(configs, one, two) {
            return Some(Pair { one, two, item });
        }
    }
    None
}
