ghost use Rattle.std.specs.Prelude.{◌≡◌, ◌⊎◌, MatchOption};
ghost use Rattle.net_addr.specs.Addresses.{ContainsAddress, IsBlock};
ghost use Rattle.net_addr.specs.LongestMatches.{IsMatch, TakesLonger};
ghost use Rattle.route_core.specs.steps.Matches.{AreBlocks};
ghost use Rattle.route_core.specs.Rows.{IsTable, kept_in, row_prefixes, rows_in};

use crate::table::TableParts;
use net_addr::{Match, Prefix};

/// The longest match of the address `a` among the prefixes of a table's rows.
pub(crate) fn longest_match(parts: TableParts<'_>, a: u32) -> Option<Match>
    requires { IsTable (kept_in parts) }
    ensures cases { IsMatch (row_prefixes parts.entry.prefixes.now (rows_in (kept_in parts.entry))) a result }
    ensures blocks { AreBlocks (row_prefixes parts.entry.prefixes.now (rows_in (kept_in parts.entry))) a }
{
    let mut best = None;
    let mut before = 0;
    for place in 0..parts.prefixes.len() {
        if parts.number(place).is_some() {
            best = longer(best, before, parts.prefixes[place], a);
            before += 1;
        }
    }
    best
}

/// The best match so far or the next prefix, whichever contains `a` and is longer.
fn longer(best: Option<Match>, place: usize, dest: Prefix, a: u32) -> Option<Match>
    ensures { (¬ ContainsAddress dest a × (result ≡ best))
        ⊎ (ContainsAddress dest a × IsBlock dest
        × MatchOption result ⊥ (TakesLonger best (record { place = place; len = dest.len }))) }
{
    if !dest.contains(a) {
        return best;
    }
    let next = Match {
        place,
        len: dest.len(),
    };
    Some(next.or_longer(best))
}
