use crate::chains::{NO_LAYER, close_chain, number_of, set_number};
use crate::end_lists::EndLists;
use crate::ends::Ends;
use crate::live::is_marked;
use rib_mix::OutOfMemory;
use std::alloc::Global;

/// Layers of routers: a number for each, chosen so that no step leads to a higher layer and few stay in one.
///
/// A walk that returns stays in one layer, so a router from which every step leads to a lower layer is on none.
/// Which numbers are chosen decides only how many routers that tells of.
///
/// They are chosen by one search through the steps, depth first (R. Tarjan, SIAM Journal on Computing 1 (1972), 146; each router's
/// number and layer in one place: D. Pearce, Information Processing Letters 116 (2016), 47): each strongly connected part gets
/// a layer, above those of all parts to which steps lead from it.
#[derive(Drop)]
pub(crate) struct Layers {
    /// The layer of each router. While it has none it's the highest number of the routers that it is known to lead to.
    numbers: Vec<u32>,
    /// What the search knows of each router that it reached.
    visits: Vec<Visit>,
    /// The number of the router that is reached next. These fall, and are above all layers.
    number: u32,
    /// The layer that is given next.
    next: u32,
}

/// A search from one router on.
#[derive(Drop)]
struct Search<'s> {
    numbers: &'s mut [u32],
    visits: &'s mut [Visit],
    number: u32,
    /// The router reached last of those that have no layer yet.
    open: u32,
    next: u32,
}

/// What the search knows of a router that it reached.
#[derive(Clone, Copy)]
struct Visit {
    /// How many of its steps were followed.
    followed: usize,
    /// Its number: each router has a lower one than those reached before it.
    number: u32,
    /// The router from which it was reached.
    from: u32,
    /// The router reached before it of those that have no layer yet.
    before: u32,
}

/// What is known before the first search.
const NO_VISIT: Visit = Visit {
    followed: 0,
    number: 0,
    from: 0,
    before: 0,
};

impl Layers {
    /// The layers of so many routers, all of them in one.
    pub fn new(alloc: Global, routers: u32) -> Result<Layers, OutOfMemory> {
        let each = routers as usize;
        Ok(Layers {
            numbers: vec![in alloc; 0; each]?,
            visits: vec![in alloc; NO_VISIT; each]?,
            number: 0,
            next: 0,
        })
    }

    /// The layer of each router.
    pub fn numbers(&self) -> &[u32] {
        self.numbers.as_slice()
    }

    /// Chooses the layers of some routers and of all to which steps lead from them, and of those from the marked ones too where
    /// one of the routers is marked itself; the others have none. Where none is, the strongly connected parts in which routers
    /// are marked have kept their steps. Takes time of these steps and of all routers, and no memory.
    pub fn choose(&mut self, lists: &EndLists<'_>, roots: &[u32], marks: &[bool]) {
        self.numbers.fill(NO_LAYER);
        self.number = NO_LAYER - 1;
        self.next = 0;
        for root in roots {
            self.search_once(lists, *root);
        }
        if has_marked(roots, marks) {
            self.search_marked(lists, marks);
        }
    }

    /// Searches all that can be reached from marked routers and isn't reached yet.
    #[inline(never)]
    fn search_marked(&mut self, lists: &EndLists<'_>, marks: &[bool]) {
        let mut router = 0u32;
        for mark in marks {
            if *mark {
                self.search_once(lists, router);
            }
            router = router.saturating_add(1);
        }
    }

    /// Searches all that can be reached from a router, where it isn't reached yet. Mostly it steps to routers that have layers.
    #[inline(always)]
    fn search_once(&mut self, lists: &EndLists<'_>, router: u32) {
        let numbers = self.numbers.as_mut_slice();
        if number_of(numbers, router) != NO_LAYER {
            return;
        }
        if !leads_to_layers(lists, router, numbers) {
            self.search_from(lists, router);
            return;
        }
        set_number(numbers, router, self.next);
        self.next = self.next.saturating_add(1);
    }

    /// Searches all that can be reached from a router and isn't reached yet: each router is reached once, and left once.
    #[inline(never)]
    fn search_from(&mut self, lists: &EndLists<'_>, root: u32) {
        let mut search = Search {
            numbers: self.numbers.as_mut_slice(),
            visits: self.visits.as_mut_slice(),
            number: self.number,
            open: root,
            next: self.next,
        };
        search.run(lists, root);
        let (number, next) = (search.number, search.next);
        self.number = number;
        self.next = next;
    }
}

impl<'s> Search<'s> {
    /// Searches from a router that isn't reached yet.
    #[inline(always)]
    fn run(&mut self, lists: &EndLists<'_>, root: u32) {
        if self.closes_chain(lists, root) {
            return;
        }
        self.reach(root, root);
        let mut router = root;
        for _ in 0..self.visits.len().saturating_mul(2) {
            match self.next_router(lists, router) {
                Some(next) => router = next,
                None => return,
            }
        }
    }

    /// Gives layers to a router and those after it, where they are a chain that ends at routers that have layers.
    fn closes_chain(&mut self, lists: &EndLists<'_>, first: u32) -> bool {
        let next = self.next;
        let Some(above) = close_chain(lists, first, next, self.numbers) else {
            return false;
        };
        self.next = above;
        true
    }

    /// Reaches a router from another, or from itself.
    #[inline(always)]
    fn reach(&mut self, router: u32, from: u32) {
        if let Some(visit) = self.visits.get_mut(router as usize) {
            *visit = Visit {
                followed: 0,
                number: self.number,
                from,
                before: self.open,
            };
            self.open = router;
        }
        set_number(self.numbers, router, self.number);
        self.number = self.number.saturating_sub(1);
    }

    /// The router at which the search goes on after another: one that this steps to and that isn't reached, else the one from
    /// which it was reached; none where it was reached from itself.
    #[inline(always)]
    fn next_router(&mut self, lists: &EndLists<'_>, router: u32) -> Option<u32> {
        let visit = self.visits.get(router as usize).copied()?;
        match lists.get(router)? {
            Ends::One(hop) => self.after_one(router, visit, *hop),
            Ends::Two(old, new) => self.after_two(lists, router, visit, (*old, *new)),
            Ends::Each(olds, news) => self.after_each(lists, router, visit, (olds, news)),
        }
    }

    /// The same, where the router steps to one alone.
    #[inline(always)]
    fn after_one(&mut self, router: u32, visit: Visit, hop: u32) -> Option<u32> {
        let number = number_of(self.numbers, hop);
        if number == NO_LAYER {
            self.reach(hop, router);
            return Some(hop);
        }
        raise(self.numbers, router, number);
        self.go_back(router, visit)
    }

    /// The same, where it has one step in each network.
    #[inline(always)]
    fn after_two(
        &mut self,
        lists: &EndLists<'_>,
        router: u32,
        visit: Visit,
        hops: (u32, u32),
    ) -> Option<u32> {
        let (old, new) = hops;
        let one = number_of(self.numbers, old);
        let other = number_of(self.numbers, new);
        if one == NO_LAYER {
            return self.go_on(lists, router, old);
        }
        if other == NO_LAYER {
            return self.go_on(lists, router, new);
        }
        raise(self.numbers, router, one.max(other));
        self.go_back(router, visit)
    }

    /// Goes on from a router to one that it steps to and that isn't reached: stays, where that one gets its layer at once.
    #[inline(always)]
    fn go_on(&mut self, lists: &EndLists<'_>, router: u32, hop: u32) -> Option<u32> {
        if self.closes_chain(lists, hop) {
            return Some(router);
        }
        self.reach(hop, router);
        Some(hop)
    }

    /// The same, where it has steps in two lists.
    #[inline(always)]
    fn after_each(
        &mut self,
        lists: &EndLists<'_>,
        router: u32,
        visit: Visit,
        steps: (&[u32], &[u32]),
    ) -> Option<u32> {
        match follow(steps, visit.followed, router, self.numbers) {
            Some((hop, place)) => {
                self.keep(router, place);
                self.go_on(lists, router, hop)
            }
            None => self.go_back(router, visit),
        }
    }

    /// Keeps how many steps of a router were followed.
    #[inline(always)]
    fn keep(&mut self, router: u32, followed: usize) {
        if let Some(visit) = self.visits.get_mut(router as usize) {
            visit.followed = followed;
        }
    }

    /// Goes back to the router from which a router was reached, all of whose steps were followed. A router that leads to none
    /// reached before it closes a strongly connected part.
    #[inline(always)]
    fn go_back(&mut self, router: u32, visit: Visit) -> Option<u32> {
        if number_of(self.numbers, router) == visit.number {
            self.give_layer(router);
        }
        if visit.from == router {
            return None;
        }
        Some(visit.from)
    }

    /// Gives the next layer to a router and to those that were reached after it and have none.
    #[inline(always)]
    fn give_layer(&mut self, router: u32) {
        for _ in 0..self.numbers.len() {
            if self.close_last() == router {
                break;
            }
        }
        self.next = self.next.saturating_add(1);
    }

    /// Gives the next layer to the router that was reached last of those that have none, and tells it.
    #[inline(always)]
    fn close_last(&mut self) -> u32 {
        let router = self.open;
        set_number(self.numbers, router, self.next);
        if let Some(visit) = self.visits.get(router as usize) {
            self.open = visit.before;
        }
        router
    }
}

/// Follows the steps of a router, in two lists, from a place on to the first that leads to one that isn't reached, which it tells with
/// its place. The router gets the highest of the numbers of the others.
fn follow(
    steps: (&[u32], &[u32]),
    first: usize,
    router: u32,
    numbers: &mut [u32],
) -> Option<(u32, usize)> {
    let (hops, others) = steps;
    let mut highest = number_of(numbers, router);
    let mut reached = None;
    for place in first..hops.len().saturating_add(others.len()) {
        let hop = hop_at(hops, others, place);
        let number = number_of(numbers, hop);
        if number == NO_LAYER {
            reached = Some((hop, place));
            break;
        }
        highest = highest.max(number);
    }
    set_number(numbers, router, highest);
    reached
}

/// The router at a place of two lists, one after the other.
fn hop_at(hops: &[u32], others: &[u32], place: usize) -> u32 {
    match hops.get(place) {
        Some(hop) => *hop,
        None => others
            .get(place.saturating_sub(hops.len()))
            .copied()
            .unwrap_or(0),
    }
}

/// Whether a router is there, and all routers that it steps to have layers, between searches.
#[inline(always)]
fn leads_to_layers(lists: &EndLists<'_>, router: u32, numbers: &[u32]) -> bool {
    match lists.get(router) {
        Some(Ends::One(hop)) => number_of(numbers, *hop) != NO_LAYER,
        Some(Ends::Two(old, new)) => {
            number_of(numbers, *old) != NO_LAYER && number_of(numbers, *new) != NO_LAYER
        }
        Some(Ends::Each(olds, news)) => are_layered(olds, numbers) && are_layered(news, numbers),
        None => false,
    }
}

/// Whether all of some routers have layers, between searches.
#[inline(always)]
fn are_layered(routers: &[u32], numbers: &[u32]) -> bool {
    for router in routers {
        if number_of(numbers, *router) == NO_LAYER {
            return false;
        }
    }
    true
}

/// Whether one of some routers is marked.
fn has_marked(routers: &[u32], marks: &[bool]) -> bool {
    for router in routers {
        if is_marked(marks, *router) {
            return true;
        }
    }
    false
}

/// Raises the number of a router to another, where it's lower.
fn raise(numbers: &mut [u32], router: u32, number: u32) {
    if let Some(own) = numbers.get_mut(router as usize) {
        *own = (*own).max(number);
    }
}
