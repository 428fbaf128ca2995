ghost use Rattle.std.specs.Prelude.{ℕ, ◌⊎◌};
ghost use Rattle.igp_theory.specs.Forwarding.{Usable, Uses, MustForward, HasStep};
ghost use Rattle.igp_theory.specs.Phases.{State};
ghost use Rattle.igp_theory.specs.declared.phase.Phase.{Phase};

use crate::migration::AnyMigration;

/// A router in `Middle` uses for each address what it uses in `Old` or what it uses in `New`.
pub fn middle_is_old_or_new<T: AnyMigration>()
    ensures { (u a : ℕ) (used : Usable) → Uses T.migration u Phase.Middle a used → Uses T.migration u Phase.Old a used ⊎
        Uses T.migration u Phase.New a used }
{}

/// Where both ends give every router that has to pass packets on a step, so does every mixture of
/// phases.
pub fn every_mixture_forwards<T: AnyMigration>()
    ensures { (a : ℕ) (state : State) → ((u : ℕ) → MustForward T.migration.net a u → HasStep T.migration u Phase.Old a) →
        ((u : ℕ) → MustForward T.migration.net a u → HasStep T.migration u Phase.New a) → (u : ℕ) → MustForward T.migration.net a u →
        HasStep T.migration u (state u) a }
{}
