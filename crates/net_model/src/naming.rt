ghost use Rattle.std.specs.Prelude.{◌≡◌, ◌<◌, ◌↔◌, ℕ, IfErr, IfSome, IsPermutation, IsTrue, MatchOption, OnOk, length};
ghost use Rattle.std.specs.List.Sorted.{IsSortedByKey};
ghost use Rattle.std.specs.Cmp.Lexicographic.{slice_cmp};
ghost use Rattle.std.specs.Ordering.{nat_cmp};
ghost use Rattle.net_model.specs.steps.Doubles.{IsFirstDouble, IsTwoNames, NoDoubles};
ghost use Rattle.net_model.specs.Lookups.{IsNamed};
ghost use Rattle.net_model.specs.Refusals.{NamesAscend, RefusesName};

use crate::{Config, NetRefusal};
use net_addr::Name;
use std::alloc::Global;
use std::cmp::Ordering;

/// Puts configurations into byte order of their names.
pub fn sort_by_name(configs: &mut Vec<Config>)
    ensures same { IsPermutation configs.old.items configs.new.items }
    ensures sorted { IsSortedByKey (λ c. c.name) (slice_cmp nat_cmp) configs.new.items }
{
    configs.sort_unstable_by(
        |a: &Config, b: &Config| -> Ordering
            ensures { result ≡ slice_cmp nat_cmp a.now.name b.now.name }
        { a.name.as_slice().cmp(b.name.as_slice()) },
    );
}

/// Refuses the least name that two configurations have. They stand in byte order of their names.
pub fn check_names(alloc: Global, configs: &[Config]) -> Result<(), NetRefusal>
    requires { IsSortedByKey (λ c. c.name) (slice_cmp nat_cmp) configs.now }
    ensures ok { OnOk result (NamesAscend configs.now) }
    ensures err { IfErr result (λ e. RefusesName e configs.now) }
{
    match first_double(configs) {
        Some(place) => Err(two_names(alloc, &configs[place])),
        None => Ok(()),
    }
}

/// The refusal of a name that two configurations have.
fn two_names(alloc: Global, config: &Config) -> NetRefusal
    ensures { IsTwoNames config.now.name result }
{
    match Vec::from_slice(alloc, config.name.as_slice()) {
        Ok(bytes) => NetRefusal::TwoNames {
            name: Name::from_vec(bytes),
        },
        Err(_) => NetRefusal::OutOfMemory,
    }
}

/// The first place whose configuration has the name of the next one.
fn first_double(configs: &[Config]) -> Option<usize>
    ensures { MatchOption result (NoDoubles configs.now (length configs.now)) (IsFirstDouble configs.now) }
{
    for next in 1..configs.len() {
        if have_one_name(&configs[next - 1], &configs[next]) {
            return Some(next - 1);
        }
    }
    None
}

/// Whether two configurations have one name.
fn have_one_name(one: &Config, two: &Config) -> bool
    ensures { IsTrue result ↔ (one.now.name ≡ two.now.name) }
{
    one.name.as_slice() == two.name.as_slice()
}

/// The place of the configuration of this name. The names ascend, so it takes time of the logarithm of their count.
pub(crate) fn place_of(configs: &[Config], name: &[u8]) -> Option<usize>
    requires { NamesAscend configs.now }
    ensures named { MatchOption result ((u : ℕ) → IsNamed configs.now name.now u → ⊥) (IsNamed configs.now name.now) }
    ensures within { IfSome result (λ place. place < length configs.now) }
{
    let found = configs.binary_search_by(
        |config: &Config| -> Ordering
            ensures { result ≡ slice_cmp nat_cmp config.now.name name.entry.now }
        { config.name.as_slice().cmp(name) },
    );
    found.ok()
}
