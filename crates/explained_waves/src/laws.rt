ghost use Rattle.explained_waves.specs.ReasonLaws.{FaultsOneEarlierAreReasons, WithoutReasonMayBeEarlier, EarlierWavesAreNoSafer};
ghost use Rattle.explained_waves.specs.ReasonLaws.{ReasonsKeepLater, ReasonsForbidEarlierWaves};

use igp_theory::AnyMigration;

/// The law that a router of a list that a migration is sound throughout may stand one wave earlier or has a reason.
///
/// What is wrong once it stands there is a reason (`reason`); where no loop is one it may stand there (`free`); and where it may
/// not, it may stand in no earlier wave (`earlier`).
pub fn earlier_waves_are_no_safer<T: AnyMigration>()
    ensures reason { FaultsOneEarlierAreReasons T.migration }
    ensures free { WithoutReasonMayBeEarlier T.migration }
    ensures earlier { EarlierWavesAreNoSafer T.migration }
{}

/// The law that a reason shows that its router may stand neither one wave earlier nor in any wave before that.
pub fn reasons_are_reasons<T: AnyMigration>()
    ensures one { ReasonsKeepLater T.migration }
    ensures all { ReasonsForbidEarlierWaves T.migration }
{}
