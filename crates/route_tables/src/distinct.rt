ghost use Rattle.std.specs.Prelude.{◌↔◌, Contains};
ghost use Rattle.net_addr.specs.Addresses.{Block};
ghost use Rattle.route_tables.specs.Prefixes.{AreDistinctPrefixes, BeginInOrder};

use net_addr::Prefix;

/// Leaves each prefix of a list once, in ascending order: by base, then by length.
pub(crate) fn keep_each_prefix_once(prefixes: &mut Vec<Prefix>)
    ensures same { (p : Block) → Contains prefixes.new.items p ↔ Contains prefixes.old.items p }
    ensures apart { AreDistinctPrefixes prefixes.new.items }
    ensures ordered { BeginInOrder prefixes.new.items }
{
    prefixes.sort_unstable();
    prefixes.dedup();
}
