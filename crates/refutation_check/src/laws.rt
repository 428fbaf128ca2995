ghost use Rattle.refutation_check.specs.Laws.{ClosedRestTreesRefute, ClosedTreesRefute, ClosedTwoTreesRefute};
ghost use Rattle.refutation_check.specs.Laws.{HaveOneRestVerdict, HaveOneTwoVerdict, HaveOneVerdict, RestTreesReadBack, SayOneStart};
ghost use Rattle.refutation_check.specs.TreeTexts.{TreesReadBack};

use igp_theory::AnyMigration;

/// The law that where every router begins in `Old` and a text is a closed tree, no wave list and no order of the network is
/// seamless.
///
/// Neither end needs to be sound, and no branch needs to be the one that a search would make.
///
/// And where a text is a closed tree of single changes, no list of all of them, each router's first before its second, has only
/// sound states; where it is one from a start, whatever that is, no list of the changes that are left there, each router's next
/// to each other, has only sound states.
pub fn closed_trees_refute<T: AnyMigration>()
    ensures routers { ClosedTreesRefute T.migration }
    ensures changes { ClosedTwoTreesRefute T.migration }
    ensures rests { ClosedRestTreesRefute T.migration }
{}

/// The law that a printed tree reads as just its nodes, of routers and of single changes.
pub fn trees_read_back()
    ensures { TreesReadBack }
{}

/// The law that a printed tree and its start read as just these, and that where its nodes are right from this start and fill a tree
/// their counts are the verdict on its text.
pub fn rest_trees_read_back<T: AnyMigration>()
    ensures { RestTreesReadBack T.migration }
{}

/// The law that a text has one verdict over a network and two sources of tables, and that a line says one start.
pub fn texts_have_one_verdict<T: AnyMigration>()
    ensures routers { HaveOneVerdict T.migration }
    ensures changes { HaveOneTwoVerdict T.migration }
    ensures rests { HaveOneRestVerdict T.migration }
    ensures starts { SayOneStart T.migration }
{}
