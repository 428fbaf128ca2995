ghost use Rattle.std.specs.Prelude.{◌≡◌, ◌++◌, All, List, ℕ, IfOk, length, map, replicate, slice_index_or, slice_set};
ghost use Rattle.walk_core.specs.Stretches.{IsOnlyHop};
ghost use Rattle.walk_core.specs.steps.Members.{AreVertices, IsSpread, member_at};
ghost use Rattle.walk_core.specs.steps.NumberLists.Numbers.{Nothing};
ghost use Rattle.walk_core.specs.steps.NumberLists.{list_of, renumbered, Grows, IsLongListKept};

use crate::OutOfMemory;
use crate::long_lists::{LongLists, vertex_at};
use crate::members::first_of;
use crate::stretch::OnlyHop;
use std::alloc::Global;
use std::marker::Model;
use std::slice;

/// The numbers of a list, in 4 bytes, since there is one for each root and vertex: one number alone stands here, and more of them
/// at a place among the long lists.
#[derive(Clone, Copy, Debug)]
pub(crate) struct PackedNumbers {
    /// One number alone below 2^31, that much more than the place of a long list, or 2^32 - 1 for none.
    code: u32,
}

impl Model for PackedNumbers {
    ghost use Rattle.std.specs.Prelude.{ℕ};
    ghost use Rattle.std.proofs.Common.{ap};
    ghost use Rattle.walk_core.specs.steps.NumberLists.{Numbers};
    ghost use Rattle.walk_core.specs.steps.NumberCodes.{code_of_numbers, numbers_code_back, numbers_of_code};

    ghost Value = { Numbers };

    ghost view = { λ x. numbers_of_code x.code };

    ghost inverse = { λ n. record { code = code_of_numbers n } };

    ghost inverse_ok = { λ x h. let P : ℕ → Inside = λ n. record { code = n } in ap P (numbers_code_back x.code) };
}

impl PackedNumbers {
    ghost use Rattle.std.specs.Prelude.{◌≡◌, ◌<◌, IfOk};
    ghost use Rattle.walk_core.specs.steps.NumberLists.Numbers.{More, Nothing, One};
    ghost use Rattle.walk_core.specs.steps.NumberLists.{list_of, renumbered};

    /// None.
    #[inline(always)]
    fn nothing() -> PackedNumbers
        ensures { result ≡ Nothing }
    {
        PackedNumbers { code: NO_NUMBER }
    }

    /// This number alone.
    #[inline(always)]
    fn one(number: u32) -> PackedNumbers
        requires { number < LONG_LISTS }
        ensures { result ≡ One number }
    {
        PackedNumbers { code: number }
    }

    /// Those of the long list of this place, which has a code.
    fn more(place: u32) -> Result<PackedNumbers, OutOfMemory>
        ensures { IfOk result (λ numbers. numbers ≡ More place) }
    {
        if place >= NO_NUMBER - LONG_LISTS {
            return Err(OutOfMemory);
        }
        Ok(PackedNumbers {
            code: LONG_LISTS + place,
        })
    }

    /// The vertex that stands at one number alone; those of a long list stay.
    fn renumbered(self, vertices: &[u32]) -> Result<PackedNumbers, OutOfMemory>
        ensures { IfOk result (λ own. own ≡ renumbered vertices.now self) }
    {
        if self.code >= LONG_LISTS {
            return Ok(self);
        }
        let vertex = vertex_at(vertices, self.code);
        if vertex >= LONG_LISTS {
            return Err(OutOfMemory);
        }
        Ok(PackedNumbers::one(vertex))
    }

    /// The one number of them, where they are one at most.
    #[inline(always)]
    fn only(self, long: &LongLists) -> OnlyHop
        ensures { IsOnlyHop (list_of long.now self) result }
    {
        if self.code < LONG_LISTS {
            return OnlyHop::One(self.code);
        }
        only_of(self.list(long))
    }

    /// The list of these, by the long lists.
    #[inline(always)]
    fn list<'a>(&'a self, long: &'a LongLists) -> &'a [u32]
        ensures { result.now ≡ list_of long.now self.now }
    {
        if self.code < LONG_LISTS {
            return slice::from_ref(&self.code);
        }
        if self.code == NO_NUMBER {
            return &[];
        }
        long.at((self.code - LONG_LISTS) as usize)
    }
}

/// The code of the first long list. Numbers below it have themselves as codes.
const LONG_LISTS: u32 = 2_147_483_648;

/// The code of no numbers.
const NO_NUMBER: u32 = u32::MAX;

/// Lists of numbers, of which most have one or none.
#[derive(Debug, Drop)]
pub(crate) struct NumberLists {
    all: Vec<PackedNumbers>,
    long: LongLists,
}

impl Model for NumberLists {
    ghost use Rattle.std.specs.Prelude.{List, ℕ, All, map};
    ghost use Rattle.walk_core.specs.steps.NumberLists.{list_of, IsLongListKept};

    ghost Value = { List (List ℕ) };

    ghost view = { λ x. map (list_of x.long) x.all.items };

    ghost invariant = { λ x. All (IsLongListKept x.long) x.all.items };
}

impl NumberLists {
    ghost use Rattle.std.specs.Prelude.{◌≡◌, ◌↔◌, ◌++◌, ◌∷◌, [], IfOk, IsTrue, OnOk, length, map, replicate, slice_index_or, slice_set};
    ghost use Rattle.walk_core.specs.steps.Members.{AreVertices, IsSpread, member_at, members_at};

    /// No lists.
    pub fn none(alloc: Global) -> NumberLists
        ensures { result ≡ [] }
    {
        NumberLists {
            all: Vec::new(alloc),
            long: LongLists::none(alloc),
        }
    }

    /// No lists, with room for so many.
    pub fn with_room(alloc: Global, count: usize) -> Result<NumberLists, OutOfMemory>
        ensures { IfOk result (λ lists. lists ≡ []) }
    {
        Ok(NumberLists {
            all: Vec::with_capacity(alloc, count)?,
            long: LongLists::none(alloc),
        })
    }

    /// Whether there are no lists.
    pub fn is_empty(&self) -> bool
        ensures { IsTrue result ↔ (self.now ≡ []) }
    {
        self.all.is_empty()
    }

    /// Adds a list behind the others.
    #[inline(always)]
    pub fn push(&mut self, list: &[u32]) -> Result<(), OutOfMemory>
        ensures { OnOk result (self.new ≡ self.old ++ list.now ∷ []) }
    {
        let numbers = numbers_of(&mut self.long, list)?;
        self.all.push(numbers)?;
        Ok(())
    }

    /// A copy of these lists behind so many empty ones.
    pub fn copy_behind(&self, alloc: Global, first: u32) -> Result<NumberLists, OutOfMemory>
        ensures { IfOk result (λ lists. lists ≡ replicate first [] ++ self.now) }
    {
        let mut all = vec![in alloc; PackedNumbers::nothing(); first as usize]?;
        all.extend_from_slice(self.all.as_slice())?;
        let long = self.long.copy(alloc)?;
        Ok(NumberLists { all, long })
    }

    /// A copy of these lists, but for an empty one at a place.
    pub fn copy_without(&self, alloc: Global, place: usize) -> Result<NumberLists, OutOfMemory>
        ensures { IfOk result (λ lists. lists ≡ slice_set self.now place []) }
    {
        let mut all = Vec::with_capacity(alloc, self.all.len())?;
        all.extend_from_slice(self.all.as_slice())?;
        let long = self.long.copy(alloc)?;
        clear_at(&mut all, place);
        Ok(NumberLists { all, long })
    }

    /// The lists of the vertices of places, which are all below `end`, from the first of them on, by those of the places: of
    /// the vertices of their numbers.
    pub fn spread(
        &self,
        alloc: Global,
        vertices: &[u32],
        end: u32,
    ) -> Result<NumberLists, OutOfMemory>
        requires { AreVertices vertices.now end }
        ensures { IfOk result (λ lists. IsSpread [] vertices.now (length vertices.now) (map (members_at vertices.now) self.now)
            (replicate (member_at vertices.now 0) [] ++ lists)) }
    {
        let all = spread_numbers(alloc, self.all.as_slice(), vertices, end)?;
        let long = self.long.renumbered(alloc, vertices)?;
        Ok(NumberLists { all, long })
    }

    /// The one number of the list of this place, where they are one at most; past the last there is none.
    #[inline(always)]
    pub fn only_at(&self, place: usize) -> OnlyHop
        ensures { IsOnlyHop (slice_index_or self.now place []) result }
    {
        match self.all.get(place) {
            Some(numbers) => numbers.only(&self.long),
            None => OnlyHop::Nothing,
        }
    }

    /// The list of this place, and an empty one past the last.
    #[inline(always)]
    pub fn at(&self, place: usize) -> &[u32]
        ensures { result.now ≡ slice_index_or self.now place [] }
    {
        match self.all.get(place) {
            Some(numbers) => numbers.list(&self.long),
            None => &[],
        }
    }
}

/// The one number of a list, where they are one at most.
fn only_of(list: &[u32]) -> OnlyHop
    ensures { IsOnlyHop list.now result }
{
    match list {
        [] => OnlyHop::Nothing,
        [number] => OnlyHop::One(*number),
        _ => OnlyHop::Several,
    }
}

/// Puts an empty list at a place, if there is one.
fn clear_at(all: &mut Vec<PackedNumbers>, place: usize)
    ensures { all.new.items ≡ slice_set all.old.items place Nothing }
{
    if place < all.len() {
        all[place] = PackedNumbers::nothing();
    }
}

/// The numbers of a list, which is kept among the long ones if need be.
#[inline(always)]
fn numbers_of(long: &mut LongLists, list: &[u32]) -> Result<PackedNumbers, OutOfMemory>
    ensures is { IfOk result (λ numbers. list_of long.new numbers ≡ list.now) }
    ensures kept { IfOk result (IsLongListKept long.new) }
    ensures grows { Grows long.old long.new }
{
    match list {
        [] => Ok(PackedNumbers::nothing()),
        [number] if *number < LONG_LISTS => Ok(PackedNumbers::one(*number)),
        _ => PackedNumbers::more(long.keep(list)?),
    }
}

/// The numbers of the vertices of places, from the first of them on, by those of the places.
fn spread_numbers(
    alloc: Global,
    numbers: &[PackedNumbers],
    vertices: &[u32],
    end: u32,
) -> Result<Vec<PackedNumbers>, OutOfMemory>
    requires { AreVertices vertices.now end }
    ensures spread { IfOk result (λ all. IsSpread Nothing vertices.now (length vertices.now)
        (map (renumbered vertices.now) numbers.now) (replicate (member_at vertices.now 0) Nothing ++ all.items)) }
    ensures kept { IfOk result (λ all. (long : List (List ℕ)) → All (IsLongListKept long) numbers.now →
        All (IsLongListKept long) all.items) }
{
    let first = first_of(vertices);
    let mut all = vec![in alloc; PackedNumbers::nothing(); (end - first) as usize]?;
    for place in 0..vertices.len() {
        let own = renumbered_at(numbers, place, vertices)?;
        all[(vertices[place] - first) as usize] = own;
    }
    Ok(all)
}

/// The numbers of a place, each the vertex that stands there.
fn renumbered_at(
    numbers: &[PackedNumbers],
    place: usize,
    vertices: &[u32],
) -> Result<PackedNumbers, OutOfMemory>
    ensures { IfOk result (λ own. own ≡ renumbered vertices.now (slice_index_or numbers.now place Nothing)) }
{
    match numbers.get(place) {
        Some(numbers) => numbers.renumbered(vertices),
        None => Ok(PackedNumbers::nothing()),
    }
}
