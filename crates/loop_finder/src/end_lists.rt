ghost use Rattle.std.specs.Prelude.{◌≡◌, ◌<◌, ℕ, All, IfOk, length, slice_set};
ghost use Rattle.std.specs.Bool.{OnTrue};
ghost use Rattle.loop_finder.specs.steps.EndPairs.{new_hops, old_hops};
ghost use Rattle.loop_finder.specs.steps.Ends.{HasBothSteps, hops_at};
ghost use Rattle.loop_finder.specs.steps.Making.{AreNoEnds, IsReadAt, IsSameAt, ReadsSeen};
ghost use Rattle.loop_finder.specs.Mixes.{mix_of, class_in};

use crate::class_hops::next_hops;
use crate::ends::Ends;
use rib_mix::{Mixed, OutOfMemory, Phase};
use route_core::RouteSource;
use std::alloc::Global;
use std::marker::Model;

/// What is read of a class: the hops of all routers in both networks, of each as if it had to pass the class's packets on.
#[derive(Drop)]
pub(crate) struct EndLists<'m> {
    all: Vec<Ends<'m>>,
}

impl<'m> Model for EndLists<'m> {
    ghost use Rattle.std.specs.Prelude.{map};
    ghost use Rattle.loop_finder.specs.steps.EndPairs.{new_hops, old_hops};
    ghost use Rattle.loop_finder.specs.steps.Ends.{ReadHops};

    ghost Value = { ReadHops };

    ghost view = { λ x. record { olds = map old_hops x.all.items; news = map new_hops x.all.items } };
}

impl<'m> EndLists<'m> {
    /// No hops of so many routers.
    pub fn new(alloc: Global, routers: u32) -> Result<EndLists<'m>, OutOfMemory>
        ensures { IfOk result (AreNoEnds routers) }
    {
        let none: &'m [u32] = &[];
        let all = vec![in alloc; Ends::Each(none, none); routers as usize]?;
        Ok(EndLists { all })
    }

    /// Takes over the hops that another has of as many routers.
    pub fn copy_from(&mut self, other: &EndLists<'m>)
        requires { length self.old.olds ≡ length other.now.olds }
        ensures { self.new ≡ other.now }
    {
        self.all.copy_from_slice(other.all.as_slice());
    }

    /// Whether a router has a hop in both networks.
    pub fn moves(&self, router: u32) -> bool
        requires { router < length self.now.olds }
        ensures { OnTrue result (HasBothSteps self.now router) }
    {
        self.at(router as usize).moves()
    }

    /// What was read of a router.
    pub fn at(&self, router: usize) -> &Ends<'m>
        requires { router < length self.now.olds }
        ensures olds { hops_at self.now.olds router ≡ old_hops result.now }
        ensures news { hops_at self.now.news router ≡ new_hops result.now }
    {
        &self.all[router]
    }

    /// The same, where the router is there.
    pub fn get(&self, router: u32) -> Option<&Ends<'m>> {
        if router as usize >= self.all.len() {
            return None;
        }
        Some(&self.all[router as usize])
    }

    /// Puts hops in the place of a router's, where the router is there.
    pub fn set(&mut self, router: u32, ends: Ends<'m>) {
        if let Some(own) = self.all.get_mut(router as usize) {
            *own = ends;
        }
    }

    /// Puts hops in the place of a router's.
    fn put(&mut self, router: u32, ends: Ends<'m>)
        requires { router < length self.old.olds }
        ensures olds { self.new.olds ≡ slice_set self.old.olds router (old_hops ends.entry) }
        ensures news { self.new.news ≡ slice_set self.old.news router (new_hops ends.entry) }
    {
        self.all[router as usize] = ends;
    }
}

/// Reads some routers for a class.
pub(crate) fn read_class<'m, O: RouteSource, N: RouteSource>(
    mixed: &'m Mixed<'_, O, N>,
    atom: u32,
    routers: &[u32],
    lists: &mut EndLists<'m>,
)
    requires atom { atom < length mixed.now.classes.samples }
    requires routers { All (λ u. u < length mixed.now.net) routers.now }
    requires olds { length lists.old.olds ≡ length mixed.now.net }
    requires news { length lists.old.news ≡ length mixed.now.net }
    ensures olds { length lists.new.olds ≡ length mixed.now.net }
    ensures news { length lists.new.news ≡ length mixed.now.net }
    ensures reads { ReadsSeen (class_in (mix_of O.table N.table mixed.now) atom) routers.now lists.old lists.new }
{
    for router in routers {
        read_router(mixed, atom, *router, lists);
    }
}

/// Reads a router.
fn read_router<'m, O: RouteSource, N: RouteSource>(
    mixed: &'m Mixed<'_, O, N>,
    atom: u32,
    router: u32,
    lists: &mut EndLists<'m>,
)
    requires atom { atom < length mixed.now.classes.samples }
    requires router { router < length mixed.now.net }
    requires olds { length lists.old.olds ≡ length mixed.now.net }
    requires news { length lists.old.news ≡ length mixed.now.net }
    ensures read { IsReadAt (class_in (mix_of O.table N.table mixed.now) atom) lists.new router }
    ensures olds_many { length lists.new.olds ≡ length lists.old.olds }
    ensures news_many { length lists.new.news ≡ length lists.old.news }
    ensures others { (u : ℕ) → ¬ (u ≡ router) → IsSameAt lists.old lists.new u }
{
    let olds = next_hops(mixed, atom, Phase::Old, router);
    let news = next_hops(mixed, atom, Phase::New, router);
    lists.put(router, Ends::new(olds, news));
}
