ghost use Rattle.std.specs.Prelude.{◌≡◌, ◌+◌, ◌<◌, ◌^◌, ◌++◌, length, IfOk, OnOk};
ghost use Rattle.order_core.specs.Rankings.{IsRanking, wave_count, wave_of, flat_of};

use std::alloc::{AllocError, Global};
use std::marker::Model;

/// A ranking of routers: each stands in a wave, the waves follow one another, and none is empty.
///
/// Seen as the list of the routers' ranks, the numbers of their waves, counted from 0.
#[derive(Debug, Drop)]
pub struct Waves {
    ranks: Vec<u32>,
    /// The routers wave by wave, ascending in each.
    flat: Vec<u32>,
    /// Where each wave begins in `flat`, and last where the last one ends.
    starts: Vec<u32>,
}

impl Model for Waves {
    ghost use Rattle.std.specs.Prelude.{List, ℕ};

    ghost Value = { List ℕ };

    ghost use Rattle.order_core.specs.HeldWaves.{AreHeldWaves};

    ghost view = { λ x. x.ranks.items };

    ghost invariant = { AreHeldWaves };
}

impl Waves {
    /// The waves of a ranking. Takes time of the routers times the waves.
    pub fn from_ranks(alloc: Global, ranks: &[u32]) -> Result<Waves, AllocError>
        requires some { 0 < length ranks.now }
        requires few { length ranks.now < 2 ^ 32 }
        requires ranking { IsRanking (length ranks.now) ranks.now }
        ensures { IfOk result (λ waves. waves ≡ ranks.now) }
    {
        let mut flat = Vec::with_capacity(alloc, ranks.len())?;
        let mut starts = Vec::new(alloc);
        starts.push(0)?;
        for wave in 0..count_waves(ranks) {
            push_wave(ranks, wave, &mut flat)?;
            starts.push(flat.len() as u32)?;
        }
        let ranks = Vec::from_slice(alloc, ranks)?;
        Ok(Waves {
            ranks,
            flat,
            starts,
        })
    }

    /// The rank of each router.
    pub fn ranks(&self) -> &[u32]
        ensures ranks { result.now ≡ self.now }
        ensures some { 0 < length self.now }
        ensures few { length self.now < 2 ^ 32 }
        ensures ranking { IsRanking (length self.now) self.now }
    {
        self.ranks.as_slice()
    }

    /// How many waves there are.
    pub fn count(&self) -> u32
        ensures { result ≡ wave_count self.now }
    {
        (self.starts.len() - 1) as u32
    }

    /// The routers of a wave, ascending.
    pub fn wave(&self, wave: u32) -> &[u32]
        requires { wave < wave_count self.now }
        ensures { result.now ≡ wave_of self.now wave }
    {
        let start = self.starts[wave as usize] as usize;
        let end = self.starts[wave as usize + 1] as usize;
        &self.flat[start..end]
    }

    /// The routers in the order of the flat run: wave by wave, ascending in each.
    pub fn flat(&self) -> &[u32]
        ensures { result.now ≡ flat_of self.now }
    {
        self.flat.as_slice()
    }
}

/// How many waves a ranking has.
fn count_waves(ranks: &[u32]) -> u32
    requires few { length ranks.now < 2 ^ 32 }
    requires ranking { IsRanking (length ranks.now) ranks.now }
    ensures { result ≡ wave_count ranks.now }
{
    let mut count: u32 = 0;
    for rank in ranks {
        count = count.max(*rank + 1);
    }
    count
}

/// Adds the routers of a wave.
fn push_wave(ranks: &[u32], wave: u32, flat: &mut Vec<u32>) -> Result<(), AllocError>
    requires { length ranks.now < 2 ^ 32 }
    ensures { OnOk result (flat.new.items ≡ flat.old.items ++ wave_of ranks.now wave) }
{
    for router in 0..ranks.len() as u32 {
        if ranks[router as usize] == wave {
            flat.push(router)?;
        }
    }
    Ok(())
}
