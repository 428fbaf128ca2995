ghost use Rattle.std.specs.Prelude.{◌≡◌, ◌↔◌, ◌∷◌, [], Some, Contains, IfOk, IsTrue, OnOk, OnErr};
ghost use Rattle.route_tables.specs.Lists.{Adds};
ghost use Rattle.net_addr.specs.Addresses.{Block, default_prefix};
ghost use Rattle.route_tables.specs.Prefixes.{AreDistinctPrefixes, BeginInOrder};

use crate::OutOfMemory;
use crate::distinct::keep_each_prefix_once;
use net_addr::Prefix;
use std::alloc::Global;
use std::marker::Model;

/// Prefixes that a protocol may have entries for, as they come.
#[derive(Debug, Drop)]
pub struct Candidates {
    all: Vec<Prefix>,
}

impl Model for Candidates {
    ghost use Rattle.std.specs.Prelude.{List};
    ghost use Rattle.net_addr.specs.Addresses.{Block};

    ghost Value = { List Block };

    ghost view = { λ x. x.all.items };
}

impl Candidates {
    /// The prefix of all addresses alone.
    pub fn new(alloc: Global) -> Result<Candidates, OutOfMemory>
        ensures { IfOk result (λ candidates. candidates ≡ default_prefix ∷ []) }
    {
        let mut all = Vec::new(alloc);
        all.push(whole())?;
        Ok(Candidates { all })
    }

    /// Adds a prefix.
    fn add(&mut self, dest: Prefix) -> Result<(), OutOfMemory>
        ensures ok { OnOk result (Adds self.old self.new (λ p. dest ≡ p)) }
        ensures err { OnErr result (self.new ≡ self.old) }
    {
        Ok(self.all.push(dest)?)
    }

    /// Adds a prefix where there is one.
    pub fn add_option(&mut self, dest: Option<Prefix>) -> Result<(), OutOfMemory>
        ensures ok { OnOk result (Adds self.old self.new (λ p. dest ≡ Some p)) }
        ensures err { OnErr result (self.new ≡ self.old) }
    {
        match dest {
            Some(dest) => self.add(dest),
            None => Ok(()),
        }
    }

    /// The prefixes in ascending order, by base and then by length, each once.
    pub fn finish(self) -> DistinctPrefixes
        ensures { (p : Block) → Contains result p ↔ Contains self p }
    {
        let mut all = self.all;
        keep_each_prefix_once(&mut all);
        DistinctPrefixes { all }
    }
}

/// Prefixes, each once, in ascending order.
#[derive(Debug, Drop)]
pub struct DistinctPrefixes {
    all: Vec<Prefix>,
}

impl Model for DistinctPrefixes {
    ghost use Rattle.std.specs.Prelude.{List};
    ghost use Rattle.net_addr.specs.Addresses.{Block};
    ghost use Rattle.route_tables.specs.Prefixes.{AreDistinctPrefixes, BeginInOrder};

    ghost Value = { List Block };

    ghost view = { λ x. x.all.items };

    ghost invariant = { λ x. AreDistinctPrefixes x.all.items × BeginInOrder x.all.items };
}

impl DistinctPrefixes {
    /// The prefixes as a slice.
    pub fn as_slice(&self) -> &[Prefix]
        ensures value { result.now ≡ self.now }
        ensures distinct { AreDistinctPrefixes self.now }
        ensures ordered { BeginInOrder self.now }
    {
        self.all.as_slice()
    }
}

/// Whether the prefix is that of all addresses.
pub fn is_all_addresses(dest: Prefix) -> bool
    ensures { IsTrue result ↔ (dest ≡ default_prefix) }
{
    dest == whole()
}

/// The prefix of all addresses.
fn whole() -> Prefix
    ensures { result ≡ default_prefix }
{
    Prefix::new(0, 0).unwrap()
}
