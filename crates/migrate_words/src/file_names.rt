ghost use Rattle.std.specs.Prelude.{◌≡◌, map};

use std::marker::Model;

/// Names of files in the order in which they were given.
#[derive(Debug, Drop)]
pub struct FileNames<'a> {
    all: Vec<&'a str>,
}

impl<'a> Model for FileNames<'a> {
    ghost use Rattle.std.specs.Prelude.{List, ℕ, map};

    ghost Value = { List (List ℕ) };

    ghost view = { λ names. map (λ name. name.now) names.all.items };
}

impl<'a> FileNames<'a> {
    /// The names of a vector, in its order.
    pub fn from_vec(all: Vec<&'a str>) -> FileNames<'a>
        ensures { result ≡ map (λ name. name.now) all.entry.items }
    {
        FileNames { all }
    }

    /// The names.
    pub fn as_slice(&self) -> &[&'a str]
        ensures { map (λ name. name.now) result.now ≡ self.now }
    {
        self.all.as_slice()
    }
}
