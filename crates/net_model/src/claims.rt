ghost use Rattle.std.specs.Prelude.{◌≡◌, ℕ, ◌<◌, ◌^◌, ◌∷◌, [], ◌++◌, ◌↔◌, length, Contains, Option, IfOk, OnOk};
ghost use Rattle.std.specs.List.{filter_map};
ghost use Rattle.std.specs.Bool.{OnTrue};
ghost use Rattle.std.specs.List.Sorted.{IsNonDecreasingBy};
ghost use Rattle.net_model.specs.Configuration.{Configuration};
ghost use Rattle.net_model.specs.declared.interface.Interface.{Interface};
ghost use Rattle.net_model.specs.steps.Claims.{ClaimsAgree, HoldsClaims, NeighborsAgree};

use crate::{Config, Interface};
use std::alloc::{AllocError, Global};

/// What an interface claims: a key, for a value.
#[derive(Clone, Copy)]
pub(crate) struct Claim {
    /// An address, the first one of a subnet, or an area.
    pub key: u32,
    /// Who has it alone: a router, or an area. Or whether it is a stub area.
    pub value: u32,
}

/// What is claimed.
pub(crate) trait Claims {
    ghost use Rattle.net_model.specs.declared.claims.Claim.{Claim};

    /// What an interface of a router claims, if anything.
    ghost claimed: { ℕ → Configuration → Interface → Option Claim };

    /// What an interface of a router claims, if anything.
    fn claim(router: u32, config: &Config, interface: &Interface) -> Option<Claim>
        ensures { result ≡ claimed router config.now interface.now };
}

/// Whether each key is claimed for one value alone. Takes the time of sorting the claims.
pub(crate) fn claims_agree<C: Claims>(alloc: Global, configs: &[Config]) -> Result<bool, AllocError>
    requires { length configs.now < 2 ^ 32 }
    ensures { IfOk result (λ agree. OnTrue agree (ClaimsAgree C.claimed configs.now)) }
{
    let mut claims = all_claims::<C>(alloc, configs)?;
    sort_by_key(&mut claims);
    Ok(neighbors_agree(&claims))
}

/// What all interfaces claim.
fn all_claims<C: Claims>(alloc: Global, configs: &[Config]) -> Result<Vec<Claim>, AllocError>
    requires { length configs.now < 2 ^ 32 }
    ensures { IfOk result (λ claims. HoldsClaims C.claimed configs.now (length configs.now) claims.items) }
{
    let mut claims = Vec::new(alloc);
    for router in 0..configs.len() as u32 {
        push_claims::<C>(&mut claims, router, &configs[router as usize])?;
    }
    Ok(claims)
}

/// Adds what the interfaces of a router claim.
fn push_claims<C: Claims>(
    claims: &mut Vec<Claim>,
    router: u32,
    config: &Config,
) -> Result<(), AllocError>
    ensures { OnOk result (claims.new.items ≡ claims.old.items ++ filter_map (C.claimed router config.now) config.now.interfaces) }
{
    for interface in config.interfaces.as_slice() {
        push_claim(claims, C::claim(router, config, interface))?;
    }
    Ok(())
}

/// Adds a claim, if there is one.
fn push_claim(claims: &mut Vec<Claim>, claim: Option<Claim>) -> Result<(), AllocError>
    ensures { OnOk result (claims.new.items ≡ claims.old.items ++ filter_map (λ c. c) (claim ∷ [])) }
{
    match claim {
        Some(claim) => Ok(claims.push(claim)?),
        None => Ok(()),
    }
}

/// Puts claims in the order of their keys.
fn sort_by_key(claims: &mut Vec<Claim>)
    ensures kept { (x : Claim) → Contains claims.new.items x ↔ Contains claims.old.items x }
    ensures sorted { IsNonDecreasingBy (λ x. x.key) claims.new.items }
{
    claims.sort_unstable_by_key(|claim| claim.key);
}

/// Whether neighbors with one key have one value.
fn neighbors_agree(claims: &[Claim]) -> bool
    ensures { OnTrue result (NeighborsAgree claims.now (length claims.now)) }
{
    for next in 1..claims.len() {
        let one = claims[next - 1];
        let two = claims[next];
        if one.key == two.key && one.value != two.value {
            return false;
        }
    }
    true
}
