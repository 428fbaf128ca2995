ghost use Rattle.explained_changes.specs.ChangeReasonLaws.{FaultsOneEarlierAreChangeReasons, FaultsOneEarlierAreOfLoops};
ghost use Rattle.explained_changes.specs.ChangeReasonLaws.{ChangeReasonsForbidEarlierWaves, ChangeReasonsKeepLater, HasOneChangeReasonsText};

use igp_theory::AnyMigration;

/// The law that a single change of a list that a migration is sound throughout may stand one wave earlier or has a reason.
///
/// What is wrong once it stands there is a loop (`loops`), and a reason (`reason`); and where there is a reason the change may
/// stand neither one wave earlier (`one`) nor in any wave before that (`all`).
pub fn earlier_changes_are_no_safer<T: AnyMigration>()
    ensures loops { FaultsOneEarlierAreOfLoops T.migration }
    ensures reason { FaultsOneEarlierAreChangeReasons T.migration }
    ensures one { ChangeReasonsKeepLater T.migration }
    ensures all { ChangeReasonsForbidEarlierWaves T.migration }
{}

/// The law that there is one text of the reasons of single changes.
pub fn change_texts_are_one<T: AnyMigration>()
    ensures { HasOneChangeReasonsText T.migration }
{}
