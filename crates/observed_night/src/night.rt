ghost use Rattle.std.specs.Prelude.{◌≡◌, ℕ, IfOk, length};
ghost use Rattle.net_model.specs.Refusals.{IsNetwork};
ghost use Rattle.order_core.specs.Rankings.{IsRanking};
ghost use Rattle.observed_night.specs.Differences.{AreOneNight};
ghost use Rattle.observed_night.specs.ObservedTexts.{IsObserved};
ghost use Rattle.observed_night.specs.ShownPhases.{IsAstray};
ghost use Rattle.observed_night.specs.steps.ToldJournals.{IsToldJournal};

use crate::astray::first_astray;
use crate::difference::first_difference;
use crate::texts::{astray_text, difference_text, journal_text};
use crate::told::told_phases;
use net_addr::Bytes;
use net_model::Net;
use order_core::Waves;
use std::alloc::{AllocError, Global};

/// What the configurations of before and of now tell of a migration.
#[derive(Debug, Drop)]
pub enum Observed {
    /// More than distances changed.
    Differs {
        /// The line with the least router that isn't as it was, and what of it.
        text: Bytes,
    },
    /// No run of the wave list leads to the distances of now.
    Astray {
        /// The line with the least router whose changes can't be.
        text: Bytes,
    },
    /// A run leads there.
    Journal {
        /// The journal of its changes up to there.
        text: Bytes,
    },
}

/// What was done of the migration of a network, by its configurations as they are now. The only error is want of memory.
pub fn observe(
    alloc: Global,
    before: &Net,
    now: &Net,
    waves: &Waves,
) -> Result<Observed, AllocError>
    requires { length waves.now ≡ length before.now }
    ensures observed { IfOk result (IsObserved before.now now.now waves.now) }
    ensures network { IsNetwork before.now }
    ensures ranking { IsRanking (length before.now) waves.now }
{
    let ranks = waves.ranks();
    if let Some(difference) = first_difference(before, now) {
        let text = difference_text(alloc, &difference)?;
        return Ok(Observed::Differs { text });
    }
    observe_night(alloc, before, now, waves, ranks)
}

/// What was done, where the configurations of now are those of before but for distances.
fn observe_night(
    alloc: Global,
    before: &Net,
    now: &Net,
    waves: &Waves,
    ranks: &[u32],
) -> Result<Observed, AllocError>
    requires each { length waves.now ≡ length before.now }
    requires ranks { ranks.now ≡ waves.now }
    requires night { AreOneNight before.now now.now }
    ensures { IfOk result (IsObserved before.now now.now waves.now) }
{
    if let Some(router) = first_astray(before, now, ranks) {
        let text = astray_text(alloc, before.config(router).name.as_slice())?;
        return Ok(Observed::Astray { text });
    }
    let journal = told_journal(alloc, before, now, waves)?;
    Ok(Observed::Journal { text: journal })
}

/// The journal of what is told, where no router is one whose changes can't be.
fn told_journal(alloc: Global, before: &Net, now: &Net, waves: &Waves) -> Result<Bytes, AllocError>
    requires ranks { length waves.now ≡ length before.now }
    requires routers { length before.now ≡ length now.now }
    requires none { (u : ℕ) → IsAstray before.now now.now waves.now u → ⊥ }
    ensures { IfOk result (IsToldJournal before.now now.now waves.now) }
{
    let phases = told_phases(alloc, before, now, waves.ranks())?;
    journal_text(alloc, before, waves, phases.as_slice())
}
