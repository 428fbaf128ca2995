ghost use Rattle.std.specs.Prelude.{◌≡◌, IfOk, codes, option_map};
ghost use Rattle.toml.specs.Data.{get_member};
ghost use Rattle.toml.specs.View.{table_view, view};
ghost use Rattle.design_file.specs.Documents.{entries_of, said_at, entries_at};
ghost use Rattle.design_file.specs.Designs.{AreInOrder, InterfacesAscend, interface_said, interfaces_said, router_said, routers_said};
ghost use Rattle.design_file.specs.Values.{as_area, as_flag, as_levels, as_metric};

use crate::value::{area_in, flag_in, levels_in, metric_in};
use crate::{DesignInterface, DesignInterfaces, DesignRouter, DesignRouters};
use net_addr::Name;
use net_model::Levels;
use std::alloc::{AllocError, Global};
use toml::{Table, Value};

/// The value at a key.
pub(crate) fn value_at<'a>(table: &'a Table, key: &str) -> Option<&'a Value>
    ensures { option_map (λ v. view v.now) result ≡ get_member key.now (table_view table.now) }
{
    table.get(key)
}

/// The area that the value at the key `area` says.
pub(crate) fn area_at(alloc: Global, table: &Table) -> Result<Option<Name>, AllocError>
    ensures { IfOk result (λ area. area ≡ said_at as_area (codes "area") (table_view table.now)) }
{
    let Some(value) = value_at(table, "area") else {
        return Ok(None);
    };
    match area_in(value) {
        Some(word) => Ok(Some(name_of(alloc, word)?)),
        None => Ok(None),
    }
}

/// The name that a text is.
fn name_of(alloc: Global, text: &str) -> Result<Name, AllocError>
    ensures { IfOk result (λ name. name ≡ text.now) }
{
    Ok(Name::from_vec(Vec::from_slice(alloc, text.as_bytes())?))
}

/// The levels that the value at the key `level` says.
pub(crate) fn levels_at(table: &Table) -> Option<Levels>
    ensures { result ≡ said_at as_levels (codes "level") (table_view table.now) }
{
    match value_at(table, "level") {
        Some(value) => levels_in(value),
        None => None,
    }
}

/// The metric that the value at the key `metric` says.
pub(crate) fn metric_at(table: &Table) -> Option<u32>
    ensures { result ≡ said_at as_metric (codes "metric") (table_view table.now) }
{
    match value_at(table, "metric") {
        Some(value) => metric_in(value),
        None => None,
    }
}

/// The truth that the value at a key says.
fn flag_at(table: &Table, key: &str) -> Option<bool>
    ensures { result ≡ said_at as_flag key.now (table_view table.now) }
{
    match value_at(table, key) {
        Some(value) => flag_in(value),
        None => None,
    }
}

/// What the table of an interface says, nothing where the value isn't a table.
fn interface_said(alloc: Global, name: &str, value: &Value) -> Result<DesignInterface, AllocError>
    ensures { IfOk result (λ i. i ≡ interface_said name.now (entries_of (Some (view value.now)))) }
{
    let name = name_of(alloc, name)?;
    match value {
        Value::Table(table) => Ok(DesignInterface {
            name,
            metric: metric_at(table),
            levels: levels_at(table),
            passive: flag_at(table, "passive"),
        }),
        _ => Ok(DesignInterface {
            name,
            metric: None,
            levels: None,
            passive: None,
        }),
    }
}

/// What the tables of the interfaces say.
fn interfaces_said(alloc: Global, table: &Table) -> Result<DesignInterfaces, AllocError>
    ensures said { IfOk result (λ all. all ≡ interfaces_said (table_view table.now)) }
    ensures ascending { IfOk result InterfacesAscend }
{
    let mut all = Vec::new(alloc);
    'interfaces: for (name, value) in table.iter() {
        all.push(interface_said(alloc, name.as_str(), value)?)?;
    }
    Ok(DesignInterfaces::from_vec(all))
}

/// What a value says as the tables of the interfaces, nothing where it isn't a table.
fn interfaces_in(alloc: Global, value: &Value) -> Result<DesignInterfaces, AllocError>
    ensures said { IfOk result (λ all. all ≡ interfaces_said (entries_of (Some (view value.now)))) }
    ensures ascending { IfOk result InterfacesAscend }
{
    match value {
        Value::Table(table) => interfaces_said(alloc, table),
        _ => Ok(DesignInterfaces::from_vec(Vec::new(alloc))),
    }
}

/// What the interfaces of a router's table say.
fn interfaces_at(alloc: Global, table: &Table) -> Result<DesignInterfaces, AllocError>
    ensures said { IfOk result (λ all. all ≡ interfaces_said (entries_at (codes "interfaces") (table_view table.now))) }
    ensures ascending { IfOk result InterfacesAscend }
{
    match value_at(table, "interfaces") {
        Some(value) => interfaces_in(alloc, value),
        None => Ok(DesignInterfaces::from_vec(Vec::new(alloc))),
    }
}

/// What the table of a router says, nothing where the value isn't a table.
fn router_said(alloc: Global, name: &str, value: &Value) -> Result<DesignRouter, AllocError>
    ensures said { IfOk result (λ r. r ≡ router_said name.now (entries_of (Some (view value.now)))) }
    ensures ascending { IfOk result (λ r. InterfacesAscend r.interfaces) }
{
    let name = name_of(alloc, name)?;
    match value {
        Value::Table(table) => Ok(DesignRouter {
            name,
            area: area_at(alloc, table)?,
            levels: levels_at(table),
            metric: metric_at(table),
            leak: flag_at(table, "leak").unwrap_or(false),
            interfaces: interfaces_at(alloc, table)?,
        }),
        _ => Ok(DesignRouter {
            name,
            area: None,
            levels: None,
            metric: None,
            leak: false,
            interfaces: DesignInterfaces::from_vec(Vec::new(alloc)),
        }),
    }
}

/// What the tables of the routers say.
fn routers_said(alloc: Global, table: &Table) -> Result<DesignRouters, AllocError>
    ensures said { IfOk result (λ all. all ≡ routers_said (table_view table.now)) }
    ensures in_order { IfOk result AreInOrder }
{
    let mut all = Vec::new(alloc);
    'routers: for (name, value) in table.iter() {
        all.push(router_said(alloc, name.as_str(), value)?)?;
    }
    Ok(DesignRouters::from_vec(all))
}

/// What a value says as the tables of the routers, nothing where it isn't a table.
fn routers_in(alloc: Global, value: &Value) -> Result<DesignRouters, AllocError>
    ensures said { IfOk result (λ all. all ≡ routers_said (entries_of (Some (view value.now)))) }
    ensures in_order { IfOk result AreInOrder }
{
    match value {
        Value::Table(table) => routers_said(alloc, table),
        _ => Ok(DesignRouters::from_vec(Vec::new(alloc))),
    }
}

/// What the routers of a document say.
pub(crate) fn routers_at(alloc: Global, document: &Table) -> Result<DesignRouters, AllocError>
    ensures said { IfOk result (λ all. all ≡ routers_said (entries_at (codes "routers") (table_view document.now))) }
    ensures in_order { IfOk result AreInOrder }
{
    match value_at(document, "routers") {
        Some(value) => routers_in(alloc, value),
        None => Ok(DesignRouters::from_vec(Vec::new(alloc))),
    }
}
