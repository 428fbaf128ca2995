ghost use Rattle.std.specs.Prelude.{◌≡◌, ◌<◌, ℕ, Contains, IfOk, OnOk, length};
ghost use Rattle.std.specs.Bool.{OnTrue};
ghost use Rattle.order_core.specs.Marks.{IsMarked};
ghost use Rattle.loop_finder.specs.steps.Targets.{IsTargetIn};
ghost use Rattle.igp_theory.specs.declared.phase.Phase.{Phase};
ghost use Rattle.loop_finder.specs.steps.Cuts.{AreRowsIn};
ghost use Rattle.loop_finder.specs.steps.PartRows.{ActsAlikeAt, HasRowHop, ServeAlike, Serves};
ghost use Rattle.loop_finder.specs.steps.PartRows.{AreKept, AreRowsOf, HasHops, HasMarked, HaveHops, IsRowOf};
ghost use Rattle.loop_finder.specs.Parts.{AllMove, IsPart, StepsEver, hops_of, no_hops, part_hops};
ghost use Rattle.loop_finder.specs.steps.Parts.{AddsUnless, AreSteppers, IsBareIn};
ghost use Rattle.loop_finder.specs.steps.Returns.{MarksReturns, layer_in};
ghost use Rattle.loop_finder.specs.Mixes.{mix_of, sample_of, class_in};
ghost use Rattle.loop_finder.specs.Watches.{IsIdle};

use crate::chains::number_of;
use crate::class_hops::{ClassTarget, next_hops};
use crate::ends::Ends;
use crate::live::is_marked;
use crate::row::Row;
use crate::rows::{RowRoom, Rows};
use rib_mix::{Mixed, OutOfMemory, Phase};
use route_core::RouteSource;
use std::alloc::Global;
use std::marker::Model;
use std::rc::Rc;

/// What digests are multiplied by: an odd number whose bits look like chance (2 to the power of 64 by the golden ratio).
const DIGEST_FACTOR: u64 = 0x9e37_79b9_7f4a_7c15;

/// The part of a class's steps that loops can take: for each router and phase the hops by which a walk over the
/// steps of both networks may return to the router. A piece that is a whole part shares its rows.
#[derive(Drop)]
pub(crate) struct Part<'m> {
    atom: u32,
    moves: bool,
    /// A number that parts share in which the same routers are marked, so that most others are told apart at once.
    digest: u64,
    rows: Rc<Rows<'m>>,
    /// The routers that have hops.
    steppers: Rc<Vec<u32>>,
}

impl<'m> Model for Part<'m> {
    ghost use Rattle.loop_finder.specs.Parts.{ClassPart};
    ghost use Rattle.loop_finder.specs.steps.Parts.{AreSteppers};

    ghost Value = { ClassPart };

    ghost view = { λ x. record { atom = x.atom; moves = x.moves; rows = x.rows.value } };

    ghost invariant = { λ x. AreSteppers x.rows.value x.steppers.value.items };
}

impl<'m> Part<'m> {
    /// The part of a class, where it's known to which routers a walk over its steps may return, and whether every router
    /// that has to pass packets on has a step in both networks.
    pub fn build<O: RouteSource, N: RouteSource>(
        room: &RowRoom<'_, 'm>,
        mixed: &'m Mixed<'_, O, N>,
        class: &ClassTarget,
        marks: &[bool],
        moves: bool,
    ) -> Result<Part<'m>, OutOfMemory>
        requires atom { class.now.atom < length mixed.now.classes.samples }
        requires target { IsTargetIn mixed.now.net (sample_of mixed.now.classes class.now.atom) class.now.target }
        requires marks { length marks.now ≡ length mixed.now.net }
        requires returns { MarksReturns (StepsEver (class_in (mix_of O.table N.table mixed.now) class.now.atom)) marks.now }
        requires moves { OnTrue moves (AllMove (class_in (mix_of O.table N.table mixed.now) class.now.atom)) }
        ensures part { IfOk result (IsPart (mix_of O.table N.table mixed.now)) }
        ensures class { IfOk result (λ part. part.atom ≡ class.now.atom) }
    {
        let rows = rows_of(room, mixed, class, marks)?;
        let steppers = steppers_of(room.alloc, &rows, mixed.net().routers())?;
        Ok(Part {
            atom: class.atom,
            moves,
            digest: digest_of(marks),
            rows: Rc::new(room.alloc, rows)?,
            steppers: Rc::new(room.alloc, steppers)?,
        })
    }

    /// The class.
    pub fn atom(&self) -> u32
        ensures { result ≡ self.now.atom }
    {
        self.atom
    }

    /// Whether every router that has to pass packets on is known to have a step in both networks.
    pub fn moves(&self) -> bool
        ensures { result ≡ self.now.moves }
    {
        self.moves
    }

    /// The routers that have hops.
    pub fn steppers(&self) -> &[u32]
        ensures { AreSteppers self.now.rows result.now }
    {
        self.steppers.as_slice()
    }

    /// The rows of its routers.
    pub fn rows(&self) -> &Rows<'m> {
        &self.rows
    }

    /// The hops of a router in a phase.
    pub fn hops_in(&self, router: u32, phase: Phase) -> &[u32]
        requires { router < length self.now.rows }
        ensures { result.now ≡ part_hops self.now router phase }
    {
        self.rows.at(router as usize).hops_in(phase)
    }

    /// Its steps from those of its routers, so many, that are in a layer, as a part of which all routers move.
    pub fn piece(
        &self,
        alloc: Global,
        routers: u32,
        layers: &[u32],
        layer: u32,
    ) -> Result<Part<'m>, OutOfMemory>
        requires { length self.now.rows ≡ routers }
        ensures { IfOk result (λ piece. AreRowsIn layers.now layer self.now.rows (length self.now.rows) piece.rows) }
    {
        let count = self.count_in(layers, layer);
        if count == self.steppers.len() {
            return self.whole();
        }
        let rows = rows_in(alloc, &self.rows, layers, layer, count)?;
        let steppers = steppers_of(alloc, &rows, routers)?;
        Ok(Part {
            atom: self.atom,
            moves: true,
            digest: self.digest,
            rows: Rc::new(alloc, rows)?,
            steppers: Rc::new(alloc, steppers)?,
        })
    }

    /// All its steps, as a part of which all routers move.
    fn whole(&self) -> Result<Part<'m>, OutOfMemory>
        ensures { IfOk result (λ piece. piece.rows ≡ self.now.rows) }
    {
        Ok(Part {
            atom: self.atom,
            moves: true,
            digest: self.digest,
            rows: self.rows.clone()?,
            steppers: self.steppers.clone()?,
        })
    }

    /// The hops of a router in both networks.
    pub fn ends_of(&self, router: u32) -> Ends<'m> {
        if router as usize >= self.rows.len() {
            return Ends::new(&[], &[]);
        }
        let row = self.rows.at(router as usize);
        Ends::new(row.old, row.new)
    }

    /// Whether a step from a router stays in its layer.
    pub fn stays(&self, router: u32, layers: &[u32]) -> bool {
        stays_in(self.hops_at(router, Phase::Old), layers, router)
            || stays_in(self.hops_at(router, Phase::Middle), layers, router)
            || stays_in(self.hops_at(router, Phase::New), layers, router)
    }

    /// How many of the routers with hops are in a layer.
    pub fn count_in(&self, layers: &[u32], layer: u32) -> usize {
        let mut count = 0usize;
        for router in self.steppers() {
            if number_of(layers, *router) == layer {
                count = count.saturating_add(1);
            }
        }
        count
    }

    /// Whether it has hops for so many routers, of which this is the first one.
    pub fn begins_with(&self, router: u32, count: usize) -> bool {
        self.steppers.len() == count && self.steppers.first().copied() == Some(router)
    }

    /// Whether it has the steps of a part that stay in the layer, where it has hops for as many routers as are in that.
    pub fn is_piece_of(&self, part: &Part<'_>, layers: &[u32], layer: u32) -> bool {
        for router in part.steppers() {
            if number_of(layers, *router) == layer && !self.has_same(part, *router, layers) {
                return false;
            }
        }
        true
    }

    /// Whether a router has the same steps in another part, of those that stay in its layer.
    fn has_same(&self, part: &Part<'_>, router: u32, layers: &[u32]) -> bool {
        are_same(self, part, router, Phase::Old, layers)
            && are_same(self, part, router, Phase::Middle, layers)
            && are_same(self, part, router, Phase::New, layers)
    }

    /// The hops of a router in a phase, none where it isn't there.
    fn hops_at(&self, router: u32, phase: Phase) -> &[u32] {
        if router as usize >= self.rows.len() {
            return &[];
        }
        self.rows.at(router as usize).hops_in(phase)
    }

    /// Whether every router moves, and a router has no hops.
    pub fn is_idle(&self, router: u32) -> bool
        requires { router < length self.now.rows }
        ensures { OnTrue result (IsIdle self.now router) }
    {
        self.moves && self.rows.is_bare_at(router as usize)
    }

    /// Whether it has all hops of a class between marked routers, of which this is the digest. Mostly these routers do the same
    /// for both classes.
    pub fn has_hops_of<O: RouteSource, N: RouteSource>(
        &self,
        mixed: &Mixed<'_, O, N>,
        atom: u32,
        marks: &[bool],
        digest: u64,
    ) -> bool
        requires class { self.now.atom < length mixed.now.classes.samples }
        requires rows { length self.now.rows ≡ length mixed.now.net }
        requires atom { atom < length mixed.now.classes.samples }
        requires marks { length marks.now ≡ length mixed.now.net }
        ensures { OnTrue result (Serves (mix_of O.table N.table mixed.now) marks.now self.now atom) }
    {
        if self.digest != digest {
            return false;
        }
        let rows: &Rows<'_> = &self.rows;
        if act_alike(mixed, (self.atom, atom), marks, rows) {
            return true;
        }
        have_hops(mixed, atom, marks, rows)
    }
}

/// The rows of the routers of a layer; the others have none.
fn rows_in<'m>(
    alloc: Global,
    rows: &Rows<'m>,
    layers: &[u32],
    layer: u32,
    count: usize,
) -> Result<Rows<'m>, OutOfMemory>
    ensures { IfOk result (λ own. AreRowsIn layers.now layer rows.now (length rows.now) own) }
{
    let room = RowRoom {
        alloc,
        before: Some(rows),
    };
    let mut own = Rows::with_room(alloc, rows.len(), count)?;
    for router in 0..rows.len() {
        let row = row_in(rows.at(router), layer_at(layers, router), layer);
        own.push(row, &room)?;
    }
    Ok(own)
}

/// A row, where its router's layer is another, else none.
fn row_in<'m>(row: &Row<'m>, own: u32, layer: u32) -> Row<'m>
    ensures { own ≡ layer → result ≡ row.now }
{
    if own == layer {
        return row.copied();
    }
    Row::empty()
}

/// The layer of the router at a place.
fn layer_at(layers: &[u32], router: usize) -> u32
    ensures { result ≡ layer_in layers.now router }
{
    layers.get(router).copied().unwrap_or(0)
}

/// Whether one of a router's hops is in its layer.
fn stays_in(hops: &[u32], layers: &[u32], router: u32) -> bool {
    let layer = number_of(layers, router);
    for hop in hops {
        if number_of(layers, *hop) == layer {
            return true;
        }
    }
    false
}

/// Whether a router has the same hops in a phase in two parts, of those in its layer.
fn are_same(one: &Part<'_>, other: &Part<'_>, router: u32, phase: Phase, layers: &[u32]) -> bool {
    let hops = one.hops_at(router, phase);
    let others = other.hops_at(router, phase);
    if hops == others {
        return true;
    }
    let layer = number_of(layers, router);
    has_layer_of(hops, others, layers, layer) && has_layer_of(others, hops, layers, layer)
}

/// Whether those of some routers that are in a layer are among others.
fn has_layer_of(others: &[u32], routers: &[u32], layers: &[u32], layer: u32) -> bool {
    for router in routers {
        if number_of(layers, *router) == layer && !others.contains(router) {
            return false;
        }
    }
    true
}

/// Whether each marked router has a hop by its row of a class, and is known to do the same for another one.
fn act_alike<O: RouteSource, N: RouteSource>(
    mixed: &Mixed<'_, O, N>,
    classes: (u32, u32),
    marks: &[bool],
    rows: &Rows<'_>,
) -> bool
    requires own { classes.0 < length mixed.now.classes.samples }
    requires other { classes.1 < length mixed.now.classes.samples }
    requires rows { length rows.now ≡ length mixed.now.net }
    ensures { OnTrue result (ServeAlike (mix_of O.table N.table mixed.now) marks.now rows.now classes.0 classes.1) }
{
    for router in 0..mixed.net().routers() {
        if !acts_alike(mixed, classes, router, marks, rows.at(router as usize)) {
            return false;
        }
    }
    true
}

/// Whether a router has a hop by its row of a class, and is known to do the same for another one, where it's marked.
fn acts_alike<O: RouteSource, N: RouteSource>(
    mixed: &Mixed<'_, O, N>,
    classes: (u32, u32),
    router: u32,
    marks: &[bool],
    row: &Row<'_>,
) -> bool
    requires own { classes.0 < length mixed.now.classes.samples }
    requires other { classes.1 < length mixed.now.classes.samples }
    requires router { router < length mixed.now.net }
    ensures { OnTrue result (IsMarked marks.now router →
        ActsAlikeAt (mix_of O.table N.table mixed.now) row.now router classes.0 classes.1) }
{
    if !is_marked(marks, router) {
        return true;
    }
    if !row.has_hop() {
        return false;
    }
    mixed.is_alike_at(router, classes.0, classes.1)
}

/// Whether some rows have all hops of a class between marked routers.
fn have_hops<O: RouteSource, N: RouteSource>(
    mixed: &Mixed<'_, O, N>,
    atom: u32,
    marks: &[bool],
    rows: &Rows<'_>,
) -> bool
    requires rows { length rows.now ≡ length mixed.now.net }
    requires atom { atom < length mixed.now.classes.samples }
    requires marks { length marks.now ≡ length mixed.now.net }
    ensures { OnTrue result (HaveHops (class_in (mix_of O.table N.table mixed.now) atom) marks.now rows.now) }
{
    for router in 0..mixed.net().routers() {
        if !has_hops(mixed, atom, router, marks, rows.at(router as usize)) {
            return false;
        }
    }
    true
}

/// Whether a row has all hops of a router to marked ones, where it's marked itself.
fn has_hops<O: RouteSource, N: RouteSource>(
    mixed: &Mixed<'_, O, N>,
    atom: u32,
    router: u32,
    marks: &[bool],
    row: &Row<'_>,
) -> bool
    requires atom { atom < length mixed.now.classes.samples }
    requires router { router < length mixed.now.net }
    ensures { OnTrue result (HasHops (class_in (mix_of O.table N.table mixed.now) atom) marks.now router row.now) }
{
    if !is_marked(marks, router) {
        return true;
    }
    has_marked_hops(mixed, atom, router, marks, row)
}

/// Whether a row has all hops of a router to marked ones.
#[inline(never)]
fn has_marked_hops<O: RouteSource, N: RouteSource>(
    mixed: &Mixed<'_, O, N>,
    atom: u32,
    router: u32,
    marks: &[bool],
    row: &Row<'_>,
) -> bool
    requires atom { atom < length mixed.now.classes.samples }
    requires router { router < length mixed.now.net }
    ensures { OnTrue result (HasHops (class_in (mix_of O.table N.table mixed.now) atom) marks.now router row.now) }
{
    let own = Row {
        old: next_hops(mixed, atom, Phase::Old, router),
        middle: next_hops(mixed, atom, Phase::Middle, router),
        new: next_hops(mixed, atom, Phase::New, router),
    };
    row.has_all(&own, marks)
}

/// A number made of the marked routers.
pub(crate) fn digest_of(marks: &[bool]) -> u64 {
    let mut digest = 0u64;
    for mark in marks {
        digest = digest
            .wrapping_mul(DIGEST_FACTOR)
            .wrapping_add(u64::from(*mark));
    }
    digest
}

/// The routers, so many, that have hops by their rows.
fn steppers_of(alloc: Global, rows: &Rows<'_>, routers: u32) -> Result<Vec<u32>, OutOfMemory>
    requires { length rows.now ≡ routers }
    ensures { IfOk result (λ steppers. AreSteppers rows.now steppers.items) }
{
    let mut steppers = Vec::with_capacity(alloc, rows.own_len())?;
    for router in 0..routers {
        add_stepper(rows, router, &mut steppers)?;
    }
    Ok(steppers)
}

/// Adds a router that has hops by its row.
fn add_stepper(rows: &Rows<'_>, router: u32, steppers: &mut Vec<u32>) -> Result<(), OutOfMemory>
    requires { router < length rows.now }
    ensures { OnOk result (AddsUnless (IsBareIn rows.now router) router steppers.old.items steppers.new.items) }
{
    if rows.is_bare_at(router as usize) {
        return Ok(());
    }
    steppers.push(router)?;
    Ok(())
}

/// The hops between marked routers, for each router and the addresses of a class.
fn rows_of<'m, O: RouteSource, N: RouteSource>(
    room: &RowRoom<'_, 'm>,
    mixed: &'m Mixed<'_, O, N>,
    class: &ClassTarget,
    marks: &[bool],
) -> Result<Rows<'m>, OutOfMemory>
    requires atom { class.now.atom < length mixed.now.classes.samples }
    requires target { IsTargetIn mixed.now.net (sample_of mixed.now.classes class.now.atom) class.now.target }
    requires marks { length marks.now ≡ length mixed.now.net }
    ensures { IfOk result (λ rows. AreRowsOf (class_in (mix_of O.table N.table mixed.now) class.now.atom) marks.now rows) }
{
    let mut rows = Rows::with_room(room.alloc, marks.len(), count_marked(marks))?;
    for router in 0..mixed.net().routers() {
        let row = row_of(mixed, class, router, marks);
        rows.push(row, room)?;
    }
    Ok(rows)
}

/// The hops from a router to marked routers, none where it isn't marked itself.
fn row_of<'m, O: RouteSource, N: RouteSource>(
    mixed: &'m Mixed<'_, O, N>,
    class: &ClassTarget,
    router: u32,
    marks: &[bool],
) -> Row<'m>
    requires atom { class.now.atom < length mixed.now.classes.samples }
    requires target { IsTargetIn mixed.now.net (sample_of mixed.now.classes class.now.atom) class.now.target }
    requires router { router < length mixed.now.net }
    ensures { IsRowOf (class_in (mix_of O.table N.table mixed.now) class.now.atom) marks.now router result }
{
    if !is_marked(marks, router) {
        return Row::empty();
    }
    if mixed.originates(router, class.target) {
        return Row::empty();
    }
    Row {
        old: kept(next_hops(mixed, class.atom, Phase::Old, router), marks),
        middle: kept(next_hops(mixed, class.atom, Phase::Middle, router), marks),
        new: kept(next_hops(mixed, class.atom, Phase::New, router), marks),
    }
}

/// Some routers where one of them is marked, else none.
fn kept<'m>(routers: &'m [u32], marks: &[bool]) -> &'m [u32]
    ensures { AreKept routers.now marks.now result.now }
{
    for router in routers {
        if is_marked(marks, *router) {
            return routers;
        }
    }
    &[]
}

/// How many routers are marked.
fn count_marked(marks: &[bool]) -> usize {
    let mut count = 0usize;
    for mark in marks {
        if *mark {
            count = count.saturating_add(1);
        }
    }
    count
}
