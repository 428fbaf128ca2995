ghost use Rattle.prefix_atoms.specs.Laws.{OneClassActsAlike, OneClassEach};

use igp_theory::AnyMigration;

/// The law that addresses of one class act alike: they have one target, and at every router the same
/// longest connected prefix, the same longest entries and the same used entry. A state is sound for all
/// of them or for none.
pub fn one_class_acts_alike<T: AnyMigration>()
    ensures alike { OneClassActsAlike T.migration }
    ensures each { OneClassEach T.migration }
{}
