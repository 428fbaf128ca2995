ghost use Rattle.std.specs.Prelude.{◌≡◌, IfOk, OnOk, All, IsUtf8};
ghost use Rattle.net_model.specs.Refusals.{IsNetwork};
ghost use Rattle.toml.specs.Data.{no_members};
ghost use Rattle.toml.specs.View.{table_view, view};
ghost use Rattle.design_writer.specs.CostDesigns.{HasTextNames, HaveTextNames};
ghost use Rattle.design_writer.specs.CostTables.{document_by_costs, level_text, put_member, router_data};
ghost use Rattle.design_writer.specs.CostTables.{with_cost, with_interfaces, with_routers};

use crate::OutOfMemory;
use net_model::{Config, Interface, Levels, Net};
use std::alloc::Global;
use toml::{Table, Value};

/// The document of a design by costs.
pub(crate) fn document(
    alloc: Global,
    net: &Net,
    area: &str,
    levels: Levels,
) -> Result<Table, OutOfMemory>
    requires { HaveTextNames net.now }
    ensures document { IfOk result (λ table. table_view table ≡ document_by_costs area.now levels net.now) }
    ensures network { OnOk result (IsNetwork net.now) }
{
    let mut table = Table::new(alloc);
    put(alloc, &mut table, "area", Value::string(alloc, area)?)?;
    put(
        alloc,
        &mut table,
        "level",
        Value::string(alloc, level_text(levels))?,
    )?;
    put(
        alloc,
        &mut table,
        "routers",
        Value::Table(routers_table(alloc, net)?),
    )?;
    Ok(table)
}

/// The word for some levels in a design.
fn level_text(levels: Levels) -> &'static str
    ensures { result.now ≡ level_text levels }
{
    match levels {
        Levels::One => "1",
        Levels::Both => "1-2",
        Levels::Two => "2",
    }
}

/// Puts a value at a key of a table.
fn put(alloc: Global, table: &mut Table, key: &str, value: Value) -> Result<(), OutOfMemory>
    ensures { OnOk result (table_view table.new ≡ put_member key.now (view value) (table_view table.old)) }
{
    let key = String::from_str(alloc, key)?;
    table.insert(key, value)?;
    Ok(())
}

/// The tables of all routers.
fn routers_table(alloc: Global, net: &Net) -> Result<Table, OutOfMemory>
    requires { HaveTextNames net.now }
    ensures tables { IfOk result (λ table. table_view table ≡ with_routers no_members net.now) }
    ensures network { OnOk result (IsNetwork net.now) }
{
    let mut table = Table::new(alloc);
    for number in 0..net.routers() {
        add_router(alloc, &mut table, net.config(number))?;
    }
    Ok(table)
}

/// Adds the table of a router.
fn add_router(alloc: Global, table: &mut Table, config: &Config) -> Result<(), OutOfMemory>
    requires name { IsUtf8 config.now.name }
    requires interfaces { HasTextNames config.now }
    ensures { OnOk result (table_view table.new ≡ put_member config.now.name (router_data config.now) (table_view table.old)) }
{
    let interfaces = interfaces_table(alloc, config.interfaces.as_slice())?;
    let mut router = Table::new(alloc);
    put(alloc, &mut router, "interfaces", Value::Table(interfaces))?;
    put(
        alloc,
        table,
        text_of(config.name.as_slice()),
        Value::Table(router),
    )
}

/// The tables of the interfaces with costs among these.
fn interfaces_table(alloc: Global, interfaces: &[Interface]) -> Result<Table, OutOfMemory>
    requires { All (λ i. IsUtf8 i.name) interfaces.now }
    ensures { IfOk result (λ table. table_view table ≡ with_interfaces no_members interfaces.now) }
{
    let mut table = Table::new(alloc);
    for interface in interfaces {
        add_interface(alloc, &mut table, interface)?;
    }
    Ok(table)
}

/// Adds the table of an interface, if it has a cost.
fn add_interface(alloc: Global, table: &mut Table, interface: &Interface) -> Result<(), OutOfMemory>
    requires { IsUtf8 interface.now.name }
    ensures { OnOk result (table_view table.new ≡ with_cost interface.now (table_view table.old)) }
{
    if interface.subnet.is_none() || interface.area.is_none() {
        return Ok(());
    }
    let mut own = Table::new(alloc);
    put(
        alloc,
        &mut own,
        "metric",
        Value::Integer(i64::from(interface.cost)),
    )?;
    put(
        alloc,
        table,
        text_of(interface.name.as_slice()),
        Value::Table(own),
    )
}

/// Bytes that are UTF-8, as text.
fn text_of(bytes: &[u8]) -> &str
    requires { IsUtf8 bytes.now }
    ensures { result.now ≡ bytes.now }
{
    let Ok(text) = std::str::from_utf8(bytes) else {
        unreachable!();
    };
    text
}
