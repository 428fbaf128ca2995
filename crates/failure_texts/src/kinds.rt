ghost use Rattle.std.specs.Prelude.{◌≡◌, ◌↔◌, Any, IsTrue};
ghost use Rattle.failure_texts.specs.LinkVerdicts.{break_count, end_count, is_break, is_ended, is_withstood, withstood_count};

use crate::verdict::{FailedLink, LinkVerdict};

/// Whether one of the links breaks the list.
pub fn has_break(failed: &[FailedLink]) -> bool
    ensures { IsTrue result ↔ Any (λ x. IsTrue (is_break x.verdict)) failed.now }
{
    failed.iter().any(|x| is_break(&x.verdict))
}

/// How many links the list withstands.
pub(crate) fn withstood_count(failed: &[FailedLink]) -> usize
    ensures { result ≡ withstood_count failed.now }
{
    failed.iter().filter(|x| is_withstood(&x.verdict)).count()
}

/// How many of them break it.
pub(crate) fn break_count(failed: &[FailedLink]) -> usize
    ensures { result ≡ break_count failed.now }
{
    failed.iter().filter(|x| is_break(&x.verdict)).count()
}

/// Without how many of them no list helps.
pub(crate) fn end_count(failed: &[FailedLink]) -> usize
    ensures { result ≡ end_count failed.now }
{
    failed.iter().filter(|x| is_ended(&x.verdict)).count()
}

/// Whether the list withstands the link.
fn is_withstood(verdict: &LinkVerdict) -> bool
    ensures { result ≡ is_withstood verdict.now }
{
    matches!(verdict, LinkVerdict::Withstood)
}

/// Whether the link breaks the list.
fn is_break(verdict: &LinkVerdict) -> bool
    ensures { result ≡ is_break verdict.now }
{
    matches!(
        verdict,
        LinkVerdict::Breaks { .. } | LinkVerdict::BreaksWave { .. }
    )
}

/// Whether no list helps without the link.
fn is_ended(verdict: &LinkVerdict) -> bool
    ensures { result ≡ is_ended verdict.now }
{
    matches!(
        verdict,
        LinkVerdict::UnsoundOld { .. }
            | LinkVerdict::UnsoundNew { .. }
            | LinkVerdict::Refused { .. }
    )
}
