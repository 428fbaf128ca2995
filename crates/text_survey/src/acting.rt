ghost use Rattle.std.specs.Prelude.{◌≡◌, IfOk};
ghost use Rattle.std.specs.List.{list_any};
ghost use Rattle.net_addr.specs.Blanks.{words_in};
ghost use Rattle.text_survey.specs.ActingForms.{acts, is_policy, uses_policy};

use crate::OutOfMemory;
use crate::acting_forms::{acts_at_top, acts_in_isis, acts_in_ospf, acts_on_interface, is_policy};
use crate::seen_words::pieces_of;
use crate::told_line::{LinePlace, ToldLine};
use ios_lines::words::Words;
use std::alloc::Global;

/// Whether a line of a configuration is skipped though a router acts on it.
pub fn acts(alloc: Global, line: &ToldLine<'_>) -> Result<bool, OutOfMemory>
    ensures { IfOk result (λ acting. acting ≡ acts line.now) }
{
    let words = Words::of(line.own());
    match line.place() {
        LinePlace::Top => Ok(acts_at_top(&words)),
        LinePlace::Interface => Ok(acts_on_interface(&words)),
        LinePlace::Ospf => Ok(acts_in_ospf(&words) || uses_policy(alloc, line.own())?),
        LinePlace::Isis => Ok(acts_in_isis(&words) || uses_policy(alloc, line.own())?),
        LinePlace::Elsewhere => Ok(false),
    }
}

/// Whether a line below a process uses a policy of routes.
fn uses_policy(alloc: Global, bytes: &[u8]) -> Result<bool, OutOfMemory>
    ensures { IfOk result (λ uses. uses ≡ uses_policy (words_in bytes.now)) }
{
    if Words::of(bytes).says(0, b"no") {
        return Ok(false);
    }
    has_policy(alloc, bytes)
}

/// Whether one of its words names one.
fn has_policy(alloc: Global, bytes: &[u8]) -> Result<bool, OutOfMemory>
    ensures { IfOk result (λ has. has ≡ list_any is_policy (words_in bytes.now)) }
{
    let pieces = pieces_of(alloc, bytes)?;
    Ok(any_policy(pieces.as_slice()))
}

/// Whether one of some pieces names one.
fn any_policy(pieces: &[&[u8]]) -> bool
    ensures { result ≡ list_any (λ piece. is_policy piece.now) pieces.now }
{
    pieces.iter().any(|piece| is_policy(piece))
}
