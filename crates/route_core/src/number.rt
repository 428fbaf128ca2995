ghost use Rattle.std.specs.Prelude.{◌≡◌, ◌+◌, ◌<◌, ◌^◌, Some, None, Ok, IfOk};

use crate::OutOfMemory;
use std::marker::Model;

/// A number, as that of an entry in a list, or that there is none. It has 4 bytes, since tables have one for each kind of prefixes.
#[derive(Clone, Copy, Debug, PartialEq, Eq)]
pub struct Number {
    /// One more than the number, 0 where there is none.
    code: u32,
}

impl Model for Number {
    ghost use Rattle.std.specs.Prelude.{ℕ, Option};
    ghost use Rattle.route_core.specs.Numbers.{code_of_number, number_of_code};

    ghost Value = { Option ℕ };

    ghost view = { λ x. number_of_code x.code };

    ghost inverse = { λ number. record { code = code_of_number number } };
}

impl Number {
    /// There is none.
    pub fn none() -> Number
        ensures { result ≡ None }
    {
        Number { code: 0 }
    }

    /// This number. The greatest of 32 bits gives `OutOfMemory`, since no list has so many entries.
    #[inline(always)]
    pub fn of(number: u32) -> Result<Number, OutOfMemory>
        ensures is { IfOk result (λ own. own ≡ Some number) }
        ensures fits { number + 1 < 2 ^ 32 → result ≡ Ok (Some number) }
    {
        match number.checked_add(1) {
            Some(code) => Ok(Number { code }),
            None => Err(OutOfMemory),
        }
    }

    /// The number, where there is one.
    #[inline(always)]
    pub fn get(self) -> Option<u32>
        ensures { result ≡ self }
    {
        self.code.checked_sub(1)
    }
}
