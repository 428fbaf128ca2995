ghost use Rattle.std.specs.Prelude.{◌≡◌, ◌<◌, ◌≤◌, ◌+◌, ◌++◌, ◌⊎◌, ◌↔◌, ℕ, OnOk, OnErr, Contains, length};
ghost use Rattle.std.specs.Vec.{vec_len, vec_capacity};
ghost use Rattle.std.specs.List.Sorted.{IsStrictlyIncreasing};

use crate::OutOfMemory;

/// Adds the numbers of a list that are below `count` to some others.
pub fn push_below(numbers: &mut Vec<u32>, list: &[u32], count: u32) -> Result<(), OutOfMemory>
    ensures ok { OnOk result ((n : ℕ) → Contains numbers.new.items n ↔ (Contains numbers.old.items n ⊎ ((n < count) × Contains list.now n))) }
    ensures err { OnErr result (numbers.new.items ≡ numbers.old.items) }
    ensures no_less { vec_capacity numbers.old ≤ vec_capacity numbers.new }
{
    numbers.reserve(list.len())?;
    add_below(numbers, list, count);
    Ok(())
}

/// Adds the numbers of a list that are below `count` to some others, for which there is room.
fn add_below(numbers: &mut Vec<u32>, list: &[u32], count: u32)
    requires { vec_len numbers.old + length list.now ≤ vec_capacity numbers.old }
    ensures added { (n : ℕ) → Contains numbers.new.items n ↔ (Contains numbers.old.items n ⊎ ((n < count) × Contains list.now n)) }
    ensures room { vec_capacity numbers.new ≡ vec_capacity numbers.old }
{
    for number in list {
        if *number < count {
            numbers.push_reserved(*number);
        }
    }
}

/// Puts numbers into ascending order, each once.
#[inline(always)]
pub fn put_in_order(numbers: &mut Vec<u32>)
    ensures ascending { IsStrictlyIncreasing numbers.new.items }
    ensures kept { (n : ℕ) → Contains numbers.new.items n ↔ Contains numbers.old.items n }
{
    if numbers.len() < 2 {
        return;
    }
    numbers.sort_unstable();
    numbers.dedup();
}

/// Adds a list of numbers behind others; most have one or none.
#[inline(always)]
pub(crate) fn add_behind(numbers: &mut Vec<u32>, list: &[u32]) -> Result<(), OutOfMemory>
    ensures added { OnOk result (numbers.new.items ≡ numbers.old.items ++ list.now) }
    ensures kept { OnErr result (numbers.new.items ≡ numbers.old.items) }
{
    match list {
        [] => Ok(()),
        [number] => Ok(numbers.push(*number)?),
        _ => add_all(numbers, list),
    }
}

/// Adds all numbers of a list behind others.
#[inline(never)]
fn add_all(numbers: &mut Vec<u32>, list: &[u32]) -> Result<(), OutOfMemory>
    ensures added { OnOk result (numbers.new.items ≡ numbers.old.items ++ list.now) }
    ensures kept { OnErr result (numbers.new.items ≡ numbers.old.items) }
{
    numbers.extend_from_slice(list)
}
