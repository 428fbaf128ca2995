ghost use Rattle.std.specs.Prelude.{◌≡◌, ◌++◌, IfOk, OnOk, codes};
ghost use Rattle.toml.specs.Data.{get_member};
ghost use Rattle.toml.specs.View.{table_view, view};
ghost use Rattle.design_file.specs.steps.FaultLists.{area_faults, document_faults, inner_faults, own_or, table_faults};
ghost use Rattle.design_file.specs.Keys.{below};
ghost use Rattle.design_file.specs.Values.{entry_fault};

use crate::DesignKind;
use crate::document::value_at;
use crate::fault::{Fault, add, below};
use crate::key::{Key, Place};
use crate::value::entry_fault;
use std::alloc::{AllocError, Global};
use toml::{Table, Value};

/// The faults of a document.
pub(crate) fn document_faults(alloc: Global, document: &Table) -> Result<Vec<Fault>, AllocError>
    ensures { IfOk result (λ faults. faults.items ≡ document_faults (table_view document.now)) }
{
    let mut faults = Vec::new(alloc);
    add_of_table(alloc, &mut faults, Place::Top, b"", document)?;
    add_of_area(alloc, &mut faults, document)?;
    Ok(faults)
}

/// Adds the fault of a document without an area.
fn add_of_area(alloc: Global, faults: &mut Vec<Fault>, document: &Table) -> Result<(), AllocError>
    ensures { OnOk result (faults.new.items ≡ faults.old.items ++ area_faults (get_member (codes "area") (table_view document.now))) }
{
    match value_at(document, "area") {
        Some(_) => Ok(()),
        None => add(alloc, faults, DesignKind::BadArea, b"area"),
    }
}

/// Adds the faults of a table's entries, in order.
#[cycle(table_faults)]
fn add_of_table(
    alloc: Global,
    faults: &mut Vec<Fault>,
    place: Place,
    path: &[u8],
    table: &Table,
) -> Result<(), AllocError>
    ensures { OnOk result (faults.new.items ≡ faults.old.items ++ table_faults (table_view table.now) place path.now) }
{
    'entries: for (word, value) in table.iter() {
        let key = place.key(word.as_str());
        let inner = below(alloc, path, word.as_str().as_bytes())?;
        add_of_entry(alloc, faults, key, inner.as_slice(), value)?;
    }
    Ok(())
}

/// Adds the fault of an entry, or else those inside it.
#[cycle(table_faults)]
fn add_of_entry(
    alloc: Global,
    faults: &mut Vec<Fault>,
    key: Option<Key>,
    path: &[u8],
    value: &Value,
) -> Result<(), AllocError>
    ensures { OnOk result (faults.new.items
        ≡ faults.old.items ++ own_or (entry_fault key (view value.now)) path.now (inner_faults (view value.now) key path.now)) }
{
    if let Some(kind) = entry_fault(key, value) {
        return add(alloc, faults, kind, path);
    }
    match (key, value) {
        (Some(Key::Table(place)), Value::Table(table)) => {
            add_of_table(alloc, faults, place, path, table)
        }
        _ => Ok(()),
    }
}
