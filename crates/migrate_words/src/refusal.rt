ghost use Rattle.migrate_words.specs.steps.Reading.{IsToldCause};
ghost use Rattle.clap.specs.Words.{kind_of};

use clap::Error;
use clap::error::ErrorKind;
use std::alloc::{AllocError, Global};

/// Why words aren't those of a command.
#[derive(Debug, Drop)]
pub enum WordsRefused {
    /// The command line doesn't take the words. The text is what `clap` has to say, and the help that was asked for is there.
    Words(String),
    /// A number is no numeral or out of its range, an area is no area, or a level none of `1`, `1-2` and `2`.
    Number,
    /// Memory ran out.
    OutOfMemory,
}

impl From<AllocError> for WordsRefused {
    ghost use Rattle.std.specs.Prelude.{◌≡◌};
    ghost use Rattle.migrate_words.specs.declared.refusal.WordsRefused.{WordsRefused};
    ghost use Rattle.migrate_words.specs.declared.refusal.WordsRefused.TheVariants.{OutOfMemory};

    ghost from_gives = { λ _ r. r ≡ OutOfMemory };

    fn from(_: AllocError) -> WordsRefused {
        WordsRefused::OutOfMemory
    }
}

/// What `clap` says of words that it doesn't take.
pub(crate) fn told(alloc: Global, error: &Error) -> WordsRefused
    ensures { IsToldCause (kind_of error.now) result }
{
    if error.kind() == ErrorKind::OutOfMemory {
        return WordsRefused::OutOfMemory;
    }
    match format!(in alloc; "{error}") {
        Ok(text) => WordsRefused::Words(text),
        Err(_) => WordsRefused::OutOfMemory,
    }
}
