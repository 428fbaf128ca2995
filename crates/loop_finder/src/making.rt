ghost use Rattle.std.specs.Prelude.{◌≡◌, ◌<◌, [], None, Some, IfOk, OnOk, length, vec_len};
ghost use Rattle.prefix_atoms.specs.Classes.{IsInClass};
ghost use Rattle.loop_finder.specs.steps.Making.{AreStill, IsMaking, IsRead, KnowsBoth, KnowsClass, KnowsUnlike};
ghost use Rattle.loop_finder.specs.Mixes.{mix_of, sample_of, class_in};

use crate::end_lists::{EndLists, read_class};
use crate::layers::Layers;
use crate::level_marks::mark_returns;
use crate::still::find_still;
use rib_mix::{Mixed, OutOfMemory};
use route_core::RouteSource;
use std::alloc::Global;
use std::mem;

/// How many routers in one that differ are too many: where more do, the other class is compared too.
const FEW_OF: usize = 10;

/// What parts are made with: what was read of the two latest classes, and what is known of them.
///
/// Classes follow each other by their addresses, and those of two kinds often take turns, as the links of many routers to a pair
/// of others: then a class is more like the one before the latest.
#[derive(Drop)]
pub(crate) struct Makings<'m> {
    /// The latest.
    pub recent: Making<'m>,
    /// The one before.
    pub older: Making<'m>,
}

/// What was read of a class, and what is known of it.
#[derive(Drop)]
pub(crate) struct Making<'m> {
    /// The class, none before the first.
    pub known: Option<u32>,
    /// What was read of it.
    pub lists: EndLists<'m>,
    /// The routers that are read anew for the next one: what they do isn't known to be the same for both.
    pub changed: Vec<u32>,
    /// For each router whether a walk over the class's steps may return to it.
    pub marks: Vec<bool>,
    /// The layers of the routers.
    pub layers: Layers,
    /// The routers without a hop in one of the networks.
    pub still: Vec<u32>,
    /// Room for more of these.
    room: Vec<u32>,
}

impl<'m> Makings<'m> {
    /// What the parts of so many routers are made with.
    pub fn new(alloc: Global, routers: u32) -> Result<Makings<'m>, OutOfMemory>
        ensures makings { IfOk result (λ made. IsMaking routers made.recent × IsMaking routers made.older) }
        ensures known { IfOk result (λ made. (made.recent.known ≡ None) × (made.older.known ≡ None)) }
        ensures still { IfOk result (λ made. (made.recent.still.items ≡ []) × (made.older.still.items ≡ [])) }
    {
        let recent = Making::new(alloc, routers)?;
        let older = Making::new(alloc, routers)?;
        Ok(Makings { recent, older })
    }

    /// Reads a class, which is the latest then. What is known stays where the same was read of the class that is most like it.
    pub fn read<O: RouteSource, N: RouteSource>(
        &mut self,
        mixed: &'m Mixed<'_, O, N>,
        atom: u32,
    ) -> Result<(), OutOfMemory>
        requires least { IsInClass mixed.now.classes atom (sample_of mixed.now.classes atom) }
        requires makings { KnowsBoth (mix_of O.table N.table mixed.now) self.old }
        ensures makings { OnOk result (KnowsBoth (mix_of O.table N.table mixed.now) self.new) }
        ensures read { OnOk result (IsRead (class_in (mix_of O.table N.table mixed.now) atom) self.new.recent.lists) }
        ensures still { OnOk result (AreStill (length mixed.now.net) self.new.recent) }
    {
        self.older.compare(mixed, atom)?;
        if self.older.is_far() {
            self.take_nearer(mixed, atom)?;
        }
        self.older.read(mixed, atom)?;
        mem::swap(&mut self.older, &mut self.recent);
        Ok(())
    }

    /// Goes on from the latest class, where a class is more like it than like the one before.
    fn take_nearer<O: RouteSource, N: RouteSource>(
        &mut self,
        mixed: &'m Mixed<'_, O, N>,
        atom: u32,
    ) -> Result<(), OutOfMemory>
        requires atom { atom < length mixed.now.classes.samples }
        requires recent { KnowsClass (mix_of O.table N.table mixed.now) self.old.recent }
        requires older { KnowsUnlike (mix_of O.table N.table mixed.now) atom self.old.older }
        ensures recent { OnOk result (KnowsClass (mix_of O.table N.table mixed.now) self.new.recent) }
        ensures older { OnOk result (KnowsUnlike (mix_of O.table N.table mixed.now) atom self.new.older) }
    {
        self.recent.compare(mixed, atom)?;
        if self.recent.changed.len() < self.older.changed.len() {
            mem::swap(&mut self.older, &mut self.recent);
            self.recent.copy_from(&self.older)?;
        }
        Ok(())
    }
}

impl<'m> Making<'m> {
    /// Nothing that is known of so many routers.
    fn new(alloc: Global, routers: u32) -> Result<Making<'m>, OutOfMemory>
        ensures making { IfOk result (IsMaking routers) }
        ensures known { IfOk result (λ making. making.known ≡ None) }
        ensures still { IfOk result (λ making. making.still.items ≡ []) }
    {
        let lists = EndLists::new(alloc, routers)?;
        Ok(Making {
            known: None,
            lists,
            changed: Vec::with_capacity(alloc, routers as usize)?,
            marks: vec![in alloc; false; routers as usize]?,
            layers: Layers::new(alloc, routers)?,
            still: Vec::new(alloc),
            room: Vec::new(alloc),
        })
    }

    /// Finds the routers that have to be read for a class.
    fn compare<O: RouteSource, N: RouteSource>(
        &mut self,
        mixed: &Mixed<'_, O, N>,
        atom: u32,
    ) -> Result<(), OutOfMemory>
        requires atom { atom < length mixed.now.classes.samples }
        requires class { KnowsClass (mix_of O.table N.table mixed.now) self.old }
        ensures { OnOk result (KnowsUnlike (mix_of O.table N.table mixed.now) atom self.new) }
    {
        self.changed.clear();
        mixed.add_unlike(atom, self.known, &mut self.changed)?;
        Ok(())
    }

    /// Whether more than a few routers have to be read.
    fn is_far(&self) -> bool {
        self.changed.len() > self.marks.len() / FEW_OF
    }

    /// Takes over what is known of another class.
    fn copy_from(&mut self, other: &Making<'m>) -> Result<(), OutOfMemory>
        requires olds { length self.old.lists.olds ≡ length other.now.lists.olds }
        requires news { length self.old.lists.news ≡ length other.now.lists.news }
        requires marks { vec_len self.old.marks ≡ vec_len other.now.marks }
        ensures known { self.new.known ≡ other.now.known }
        ensures lists { self.new.lists ≡ other.now.lists }
        ensures marks { self.new.marks.items ≡ other.now.marks.items }
        ensures many { vec_len self.new.marks ≡ vec_len other.now.marks }
        ensures still { OnOk result (self.new.still.items ≡ other.now.still.items) }
    {
        self.known = other.known;
        self.lists.copy_from(&other.lists);
        self.marks.copy_from_slice(other.marks.as_slice());
        self.still.clear();
        self.still.extend_from_slice(other.still.as_slice())?;
        Ok(())
    }

    /// Reads a class, of which it's known which routers have to be read.
    fn read<O: RouteSource, N: RouteSource>(
        &mut self,
        mixed: &'m Mixed<'_, O, N>,
        atom: u32,
    ) -> Result<(), OutOfMemory>
        requires least { IsInClass mixed.now.classes atom (sample_of mixed.now.classes atom) }
        requires unlike { KnowsUnlike (mix_of O.table N.table mixed.now) atom self.old }
        ensures class { OnOk result (KnowsClass (mix_of O.table N.table mixed.now) self.new) }
        ensures read { OnOk result (IsRead (class_in (mix_of O.table N.table mixed.now) atom) self.new.lists) }
        ensures still { OnOk result (AreStill (length mixed.now.net) self.new) }
    {
        let changed = self.changed.as_slice();
        read_class(mixed, atom, changed, &mut self.lists);
        self.known = Some(atom);
        mark_returns(&self.lists, changed, &mut self.layers, &mut self.marks);
        find_still(&self.lists, changed, &mut self.still, &mut self.room)?;
        Ok(())
    }
}
