ghost use Rattle.std.specs.List.Sorted.{IsStrictlyIncreasing};
ghost use Rattle.prefix_atoms.specs.steps.Lists.{IsPlaceOf};

/// How many places are looked at one after another before a search over the whole list.
const NEAR: usize = 8;

/// Where a number stands in an ascending list, or would stand: first looked for at the places from `from` on.
#[inline(always)]
pub(crate) fn number_near(numbers: &[u32], x: u32, from: usize) -> usize
    requires { IsStrictlyIncreasing numbers.now }
    ensures { IsPlaceOf numbers.now x result }
{
    if from < numbers.len() && numbers[from] == x {
        return from;
    }
    number_behind(numbers, x, from)
}

/// The same, where it is mostly further on.
#[inline(never)]
fn number_behind(numbers: &[u32], x: u32, from: usize) -> usize
    requires { IsStrictlyIncreasing numbers.now }
    ensures { IsPlaceOf numbers.now x result }
{
    let end = from.saturating_add(NEAR).min(numbers.len());
    for place in from..end {
        if numbers[place] == x {
            return place;
        }
    }
    place_of(numbers, x)
}

/// Where a number stands in an ascending list, or would stand.
fn place_of(numbers: &[u32], x: u32) -> usize
    requires { IsStrictlyIncreasing numbers.now }
    ensures { IsPlaceOf numbers.now x result }
{
    match numbers.binary_search(&x) {
        Ok(place) => place,
        Err(place) => place,
    }
}
