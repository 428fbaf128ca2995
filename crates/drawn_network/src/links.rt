ghost use Rattle.std.specs.Prelude.{◌≡◌, ◌<◌, ◌&&◌, ◌++◌, ◌∷◌, [], length, take, drop, not, if◌then◌else◌, IfOk, OnOk};
ghost use Rattle.std.specs.List.{filter, list_any};
ghost use Rattle.drawn_network.specs.LinkEnds.{link_begun, links_among, share_link, share_subnet};

use crate::OutOfMemory;
use crate::ends::LinkEnd;
use std::alloc::Global;
use std::marker::Model;

/// A link: the ends of a subnet that two routers or more share, in their order.
#[derive(Drop)]
pub(crate) struct Link<'a> {
    ends: Vec<LinkEnd<'a>>,
}

impl<'a> Model for Link<'a> {
    ghost use Rattle.drawn_network.specs.LinkEnds.{Link};

    ghost Value = { Link };

    ghost view = { λ x. x.ends.items };
}

impl<'a> Link<'a> {
    ghost use Rattle.std.specs.Prelude.{◌≡◌};

    /// Its ends.
    pub(crate) fn ends(&self) -> &[LinkEnd<'a>]
        ensures { result.now ≡ self.now }
    {
        self.ends.as_slice()
    }
}

/// The links of some ends, in the order of their first ends.
pub(crate) fn links_among<'a>(
    alloc: Global,
    ends: &[LinkEnd<'a>],
) -> Result<Vec<Link<'a>>, OutOfMemory>
    ensures { IfOk result (λ links. links.items ≡ links_among ends.now) }
{
    let mut links = Vec::new(alloc);
    for place in 0..ends.len() {
        push_link(alloc, &mut links, ends, place)?;
    }
    Ok(links)
}

/// Adds the link that begins with the end at a place, if one does.
fn push_link<'a>(
    alloc: Global,
    links: &mut Vec<Link<'a>>,
    ends: &[LinkEnd<'a>],
    place: usize,
) -> Result<(), OutOfMemory>
    requires { place < length ends.now }
    ensures { OnOk result (links.new.items ≡ links.old.items ++ link_begun (take place ends.now) (drop place ends.now)) }
{
    let first = &ends[place];
    let rest = &ends[place + 1..];
    if begins_link(&ends[..place], first, rest) {
        links.push(link_from(alloc, first, rest)?)?;
    }
    Ok(())
}

/// Whether an end is the first of a link, between those before it and the rest.
fn begins_link<'a>(before: &[LinkEnd<'a>], first: &LinkEnd<'a>, rest: &[LinkEnd<'a>]) -> bool
    ensures { result ≡ (not (list_any (share_subnet first.now) before.now) && list_any (share_link first.now) rest.now) }
{
    !is_met(first, before) && is_linked(first, rest)
}

/// Whether one of some ends is of the same subnet.
fn is_met<'a>(end: &LinkEnd<'a>, ends: &[LinkEnd<'a>]) -> bool
    ensures { result ≡ list_any (share_subnet end.now) ends.now }
{
    ends.iter().any(|other| end.shares_subnet(other))
}

/// Whether one of them is, and of another router.
fn is_linked<'a>(end: &LinkEnd<'a>, ends: &[LinkEnd<'a>]) -> bool
    ensures { result ≡ list_any (share_link end.now) ends.now }
{
    ends.iter().any(|other| end.shares_link(other))
}

/// The link of its first end, and of those of the rest that are of its subnet.
fn link_from<'a>(
    alloc: Global,
    first: &LinkEnd<'a>,
    rest: &[LinkEnd<'a>],
) -> Result<Link<'a>, OutOfMemory>
    ensures { IfOk result (λ link. link ≡ first.now ∷ filter (share_subnet first.now) rest.now) }
{
    let mut ends = Vec::new(alloc);
    ends.push(first.same())?;
    for end in rest {
        push_if(&mut ends, end, first.shares_subnet(end))?;
    }
    Ok(Link { ends })
}

/// Adds an end if it is wanted.
fn push_if<'a>(
    ends: &mut Vec<LinkEnd<'a>>,
    end: &LinkEnd<'a>,
    wanted: bool,
) -> Result<(), OutOfMemory>
    ensures { OnOk result (ends.new.items ≡ ends.old.items ++ (if wanted then end.now ∷ [] else [])) }
{
    if wanted {
        ends.push(end.same())?;
    }
    Ok(())
}
