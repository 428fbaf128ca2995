ghost use Rattle.std.specs.Prelude.{◌<◌, ◌≤◌, ◌^◌, All, IfOk, None, length, slice_index_or};
ghost use Rattle.prefix_atoms.specs.steps.Numbers.{IsNumbering, TakesNumber};

use std::alloc::{AllocError as OutOfMemory, Global};

/// A numbering of keys by first appearance.
#[derive(Drop)]
pub(crate) struct Numbering {
    /// The number of each key.
    pub numbers: Vec<u32>,
    /// For each number the first place that has it.
    pub firsts: Vec<usize>,
}

/// Numbers keys below a bound by first appearance: equal keys have one number.
pub(crate) fn number(alloc: Global, keys: &[usize], bound: usize) -> Result<Numbering, OutOfMemory>
    requires keys { All (λ key. key < bound) keys.now }
    requires few { length keys.now ≤ 2 ^ 32 }
    ensures { IfOk result (λ n. IsNumbering keys.now n.numbers.items n.firsts.items) }
{
    let mut numbers = Vec::new(alloc);
    let mut firsts = Vec::new(alloc);
    let mut seen = vec![in alloc; None; bound]?;
    for (place, key) in keys.iter().enumerate() {
        let next = next_number(&mut seen, &mut firsts, *key, place)?;
        numbers.push(next)?;
    }
    Ok(Numbering { numbers, firsts })
}

/// The number of a key: the one that it has, or the next one that is free.
fn next_number(
    seen: &mut Vec<Option<u32>>,
    firsts: &mut Vec<usize>,
    key: usize,
    place: usize,
) -> Result<u32, OutOfMemory>
    requires key { key < length seen.old.items }
    requires few { length firsts.old.items < 2 ^ 32 }
    ensures { IfOk result (λ number. TakesNumber (slice_index_or seen.old.items key None) key place number
        (record { seen = seen.old.items; firsts = firsts.old.items }) (record { seen = seen.new.items; firsts = firsts.new.items })) }
{
    match seen[key] {
        Some(number) => Ok(number),
        None => {
            let number = firsts.len() as u32;
            firsts.push(place)?;
            seen[key] = Some(number);
            Ok(number)
        }
    }
}
