ghost use Rattle.std.specs.Prelude.{◌≡◌, drop, IfOk};
ghost use Rattle.std.specs.Vec.Iter.{into_iter_items};

use std::alloc::{AllocError as OutOfMemory, Global};
use std::rt::Env;
use std::{env, io};

/// The words of a call, those of the environment after the program's name. There are none where one isn't UTF-8: no words ask for
/// nothing.
pub fn call_words<R: AllocGlobal + Env>(rt: &R) -> Result<Vec<String>, OutOfMemory> {
    match env::args(rt) {
        Ok(words) => behind_name(rt.alloc(), words),
        Err(error) if error.kind() == io::ErrorKind::OutOfMemory => Err(OutOfMemory),
        Err(_) => Ok(Vec::new(rt.alloc())),
    }
}

/// The words after the first one, the program's name.
fn behind_name(alloc: Global, words: env::Args) -> Result<Vec<String>, OutOfMemory>
    ensures { IfOk result (λ all. all.items ≡ drop 1 (into_iter_items words)) }
{
    let mut words = words;
    let _name = words.next();
    let mut all = Vec::new(alloc);
    for word in words {
        all.push(word)?;
    }
    Ok(all)
}
