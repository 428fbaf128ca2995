ghost use Rattle.std.specs.Prelude.{◌≡◌, ◌↔◌, IsTrue};
ghost use Rattle.rib_mix.specs.steps.Uses.{IsOfNew};

use std::marker::Model;

/// What a router uses for an address.
#[derive(Clone, Copy, Debug)]
pub(crate) enum Used {
    /// No entry.
    Nothing,
    /// A connected prefix.
    Connected,
    /// The entry of this number that the old table keeps.
    Old(u32),
    /// The entry of this number that the new table keeps.
    New(u32),
}

/// The same in 4 bytes, since there are two for each router and sort of prefixes.
#[derive(Clone, Copy, Debug)]
pub(crate) struct Use {
    /// 0 for nothing, 2 for a connected prefix, 2 n + 4 for entry n of the old table and 2 n + 1 for entry n of the new one.
    code: u32,
}

impl Model for Use {
    ghost use Rattle.std.specs.Prelude.{ℕ};
    ghost use Rattle.std.proofs.Common.{ap};
    ghost use Rattle.rib_mix.specs.declared.used.Used.{Used};
    ghost use Rattle.rib_mix.specs.steps.Codes.{use_code_back, code_of_use, use_of_code};

    ghost Value = { Used };

    ghost view = { λ x. use_of_code x.code };

    ghost inverse = { λ u. record { code = code_of_use u } };

    ghost inverse_ok = { λ x h. let P : ℕ → Inside = λ n. record { code = n } in ap P (use_code_back x.code) };
}

impl Use {
    ghost use Rattle.std.specs.Prelude.{◌≡◌, ◌<◌, ◌+◌, ◌^◌, ◌↔◌, IsTrue};
    ghost use Rattle.rib_mix.specs.steps.Codes.{use_of_code};
    ghost use Rattle.rib_mix.specs.steps.Uses.{IsOfNew};
    ghost use Rattle.rib_mix.specs.declared.used.Used.TheVariants.{Connected, New, Nothing, Old};

    /// The number of entries up to which all have a code.
    pub const MOST_NUMBERS: u32 = 0x7FFF_FFFE;

    /// No entry.
    #[inline(always)]
    pub fn nothing() -> Use
        ensures { result ≡ Nothing }
    {
        Use { code: 0 }
    }

    /// A connected prefix.
    #[inline(always)]
    pub fn connected() -> Use
        ensures { result ≡ Connected }
    {
        Use { code: 2 }
    }

    /// The entry of this number that the old table keeps.
    #[inline(always)]
    pub fn old(number: u32) -> Use
        requires { number + 2 < 2 ^ 31 }
        ensures { result ≡ Old number }
    {
        Use {
            code: 2 * number + 4,
        }
    }

    /// The same of the new table.
    #[inline(always)]
    pub fn new(number: u32) -> Use
        requires { number + 2 < 2 ^ 31 }
        ensures { result ≡ New number }
    {
        Use {
            code: 2 * number + 1,
        }
    }

    /// What is used.
    #[inline(always)]
    pub fn get(self) -> Used
        ensures { result ≡ self }
    {
        match self.code {
            code if code % 2 == 1 => Used::New(code / 2),
            0 => Used::Nothing,
            2 => Used::Connected,
            code => Used::Old(code / 2 - 2),
        }
    }

    /// What stands for it.
    #[inline(always)]
    pub fn code(self) -> u32
        ensures { use_of_code result ≡ self }
    {
        self.code
    }

    /// Whether it is an entry of the new table.
    #[inline(always)]
    pub fn is_of_new(self) -> bool
        ensures { IsTrue result ↔ IsOfNew self }
    {
        self.code % 2 == 1
    }
}
