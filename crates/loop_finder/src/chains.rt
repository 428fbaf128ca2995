use crate::end_lists::EndLists;
use crate::ends::Ends;

/// What stands for the layer of a router that has none.
pub(crate) const NO_LAYER: u32 = u32::MAX;

/// How a chain of routers goes on after one of them.
#[derive(Clone, Copy)]
enum Link {
    /// To its only hop that isn't reached yet.
    To(u32),
    /// It ends: all hops have layers.
    End,
    /// It's none: hops are reached and have no layers yet, or several aren't reached.
    Broken,
}

/// Gives layers, falling, to a router and those after it, where they are a chain: each steps to the next one and else only to
/// routers that have layers, and the last to no others. These are all below the layer that is given next; tells
/// the one that is given next after them.
pub(crate) fn close_chain(
    lists: &EndLists<'_>,
    first: u32,
    next: u32,
    numbers: &mut [u32],
) -> Option<u32> {
    let top = next.saturating_add(u32::try_from(numbers.len()).unwrap_or(NO_LAYER));
    let mut router = first;
    let mut number = top;
    for _ in 0..numbers.len() {
        match link_of(lists, router, next, numbers) {
            Link::To(hop) => {
                set_number(numbers, router, number);
                router = hop;
            }
            Link::End => {
                set_number(numbers, router, number);
                return Some(top.saturating_add(1));
            }
            Link::Broken => break,
        }
        number = number.saturating_sub(1);
    }
    open_chain(lists, first, router, next, numbers);
    None
}

/// Takes the layers from a router, those after it up to another and that one, over hops that have no layers below this one.
/// The last one has a layer where it steps to itself.
fn open_chain(lists: &EndLists<'_>, first: u32, end: u32, next: u32, numbers: &mut [u32]) {
    let mut router = first;
    for _ in 0..numbers.len() {
        set_number(numbers, router, NO_LAYER);
        if router == end {
            return;
        }
        router = match lists.get(router) {
            Some(Ends::One(hop)) => *hop,
            Some(Ends::Two(old, new)) if number_of(numbers, *old) < next => *new,
            Some(Ends::Two(old, _)) => *old,
            _ => return,
        };
    }
}

/// How a chain goes on after a router.
#[inline(always)]
fn link_of(lists: &EndLists<'_>, router: u32, next: u32, numbers: &[u32]) -> Link {
    match lists.get(router) {
        Some(Ends::One(hop)) => link_over(*hop, next, numbers),
        Some(Ends::Two(old, new)) if number_of(numbers, *old) < next => link_over(
            *new, next, numbers,
        ),
        Some(Ends::Two(old, new)) if number_of(numbers, *new) < next => link_over(
            *old, next, numbers,
        ),
        Some(Ends::Each(olds, news))
            if are_below(olds, next, numbers) && are_below(news, next, numbers) => Link::End,
        _ => Link::Broken,
    }
}

/// How a chain goes on over a hop.
#[inline(always)]
fn link_over(hop: u32, next: u32, numbers: &[u32]) -> Link {
    let number = number_of(numbers, hop);
    if number < next {
        Link::End
    } else if number == NO_LAYER {
        Link::To(hop)
    } else {
        Link::Broken
    }
}

/// Whether all of some routers have layers, below this one.
fn are_below(routers: &[u32], next: u32, numbers: &[u32]) -> bool {
    for router in routers {
        if number_of(numbers, *router) >= next {
            return false;
        }
    }
    true
}

/// Sets the number of a router.
pub(crate) fn set_number(numbers: &mut [u32], router: u32, number: u32) {
    if let Some(own) = numbers.get_mut(router as usize) {
        *own = number;
    }
}

/// The number of a router; that of a lowest layer where it isn't there.
pub(crate) fn number_of(numbers: &[u32], router: u32) -> u32 {
    numbers.get(router as usize).copied().unwrap_or(0)
}
