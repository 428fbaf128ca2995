ghost use Rattle.shown_tables.specs.TablesTexts.{HasOneTablesText, SameTablesText};

use igp_theory::AnyMigration;

/// The laws of the text of a network's tables.
///
/// There is at most one, and tables with the same entries at the routers of the network have the same one.
pub fn tables_have_one_text<T: AnyMigration, S: AnyMigration>()
    ensures one { HasOneTablesText T.migration }
    ensures same { SameTablesText T.migration S.migration.old S.migration.new }
{}
