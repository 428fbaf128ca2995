ghost use Rattle.std.specs.Prelude.{◌≡◌, ℕ, [], nat_eq, map, fold, OnOk, IfOk};
ghost use Rattle.std.specs.List.{cons_option};
ghost use Rattle.indexmap.specs.IndexMap.{get};
ghost use Rattle.ios_lines.specs.Lookups.{later, last_of, replaced};
ghost use Rattle.ios_reader.specs.Routers.{is_same_range, is_same_area, range_said, ranges_in, stub_said, stub_lines_in, default_cost_said, stubs_in};
ghost use Rattle.ios_reader.specs.steps.Tables.{values_in, AreKeyed, range_key, stub_key, stub_made};

use crate::OutOfMemory;
use indexmap::IndexMap;
use ios_lines::ospf_line::{OspfLine, OspfStatement, StubLine};
use net_model::{Range, Stub};
use std::alloc::Global;

/// The area, the base and the length of the prefix of a range.
type RangeKey = (u32, u32, u8);

/// The area and the prefix of a range.
fn range_key(range: &Range) -> RangeKey
    ensures { result ≡ range_key range.now }
{
    (range.area, range.dest.base(), range.dest.len())
}

/// Takes in a range: it replaces the earlier one for the same area and prefix.
fn with_range(ranges: &mut IndexMap<RangeKey, Range>, range: Range) -> Result<(), OutOfMemory>
    requires { AreKeyed range_key ranges.old.entries }
    ensures keyed { OnOk result (AreKeyed range_key ranges.new.entries) }
    ensures ranges { OnOk result (values_in ranges.new.entries ≡ replaced is_same_range (values_in ranges.old.entries) range) }
{
    let key = range_key(&range);
    ranges.insert(key, range)?;
    Ok(())
}

/// The range that a line gives.
fn range_said(line: &OspfLine) -> Option<Range>
    ensures { result ≡ range_said line.now }
{
    match line {
        OspfLine::Range(Ok(range)) => Some(*range),
        _ => None,
    }
}

/// Takes in the range of a line, where it gives one.
fn add_range(
    ranges: &mut IndexMap<RangeKey, Range>,
    range: Option<Range>,
) -> Result<(), OutOfMemory>
    requires { AreKeyed range_key ranges.old.entries }
    ensures keyed { OnOk result (AreKeyed range_key ranges.new.entries) }
    ensures ranges { OnOk result (values_in ranges.new.entries ≡ fold (replaced is_same_range) (values_in ranges.old.entries) (cons_option range [])) }
{
    match range {
        Some(range) => with_range(ranges, range),
        None => Ok(()),
    }
}

/// The ranges of an OSPF process, each under its area and prefix.
fn range_table(
    alloc: Global,
    lines: &[OspfStatement],
) -> Result<IndexMap<RangeKey, Range>, OutOfMemory>
    ensures { IfOk result (λ ranges. values_in ranges.entries ≡ ranges_in lines.now) }
{
    let mut ranges = IndexMap::new(alloc);
    for statement in lines {
        add_range(&mut ranges, range_said(&statement.says))?;
    }
    Ok(ranges)
}

/// The ranges of an OSPF process.
pub(crate) fn ranges_in(alloc: Global, lines: &[OspfStatement]) -> Result<Vec<Range>, OutOfMemory>
    ensures { IfOk result (λ ranges. ranges.items ≡ ranges_in lines.now) }
{
    let table = range_table(alloc, lines)?;
    Vec::from_slice(alloc, table.values().as_slice())
}

/// Takes in a stub line: it replaces the earlier one for the same area.
fn with_stub(stubs: &mut IndexMap<u32, StubLine>, stub: StubLine) -> Result<(), OutOfMemory>
    requires { AreKeyed stub_key stubs.old.entries }
    ensures keyed { OnOk result (AreKeyed stub_key stubs.new.entries) }
    ensures stubs { OnOk result (values_in stubs.new.entries ≡ replaced is_same_area (values_in stubs.old.entries) stub) }
{
    stubs.insert(stub.area, stub)?;
    Ok(())
}

/// The stub area that a line gives.
fn stub_said(line: &OspfLine) -> Option<StubLine>
    ensures { result ≡ stub_said line.now }
{
    match line {
        OspfLine::Stub(Ok(stub)) => Some(*stub),
        _ => None,
    }
}

/// Takes in the stub area of a line, where it gives one.
fn add_stub(stubs: &mut IndexMap<u32, StubLine>, stub: Option<StubLine>) -> Result<(), OutOfMemory>
    requires { AreKeyed stub_key stubs.old.entries }
    ensures keyed { OnOk result (AreKeyed stub_key stubs.new.entries) }
    ensures stubs { OnOk result (values_in stubs.new.entries ≡ fold (replaced is_same_area) (values_in stubs.old.entries) (cons_option stub [])) }
{
    match stub {
        Some(stub) => with_stub(stubs, stub),
        None => Ok(()),
    }
}

/// The stub areas of an OSPF process, each by its last line, under their numbers.
fn stub_table(
    alloc: Global,
    lines: &[OspfStatement],
) -> Result<IndexMap<u32, StubLine>, OutOfMemory>
    ensures { IfOk result (λ stubs. values_in stubs.entries ≡ stub_lines_in lines.now) }
{
    let mut stubs = IndexMap::new(alloc);
    for statement in lines {
        add_stub(&mut stubs, stub_said(&statement.says))?;
    }
    Ok(stubs)
}

/// Takes in the default cost of a line, where it gives one.
fn add_default_cost(costs: &mut IndexMap<u32, u32>, line: &OspfLine) -> Result<(), OutOfMemory>
    ensures { OnOk result ((area : ℕ) → get nat_eq costs.new area ≡ later (get nat_eq costs.old area) (default_cost_said area line.now)) }
{
    match line {
        OspfLine::DefaultCost(Ok(said)) => {
            costs.insert(said.area, said.cost)?;
            Ok(())
        }
        _ => Ok(()),
    }
}

/// The default costs of the areas of an OSPF process, each by its last line.
fn default_costs(alloc: Global, lines: &[OspfStatement]) -> Result<IndexMap<u32, u32>, OutOfMemory>
    ensures { IfOk result (λ costs. (area : ℕ) → get nat_eq costs area ≡ last_of (λ s. default_cost_said area s.says) lines.now) }
{
    let mut costs = IndexMap::new(alloc);
    for statement in lines {
        add_default_cost(&mut costs, &statement.says)?;
    }
    Ok(costs)
}

/// The default cost of an area, where there is one.
fn default_cost_at(costs: &IndexMap<u32, u32>, area: u32) -> Option<u32>
    ensures { result ≡ get nat_eq costs.now area }
{
    match costs.get(&area) {
        Some(cost) => Some(*cost),
        None => None,
    }
}

/// A stub area with its default cost.
fn stub_made(costs: &IndexMap<u32, u32>, stub: StubLine) -> Stub
    ensures { result ≡ stub_made (get nat_eq costs.now) stub }
{
    Stub {
        area: stub.area,
        no_summary: stub.no_summary,
        default_cost: default_cost_at(costs, stub.area).unwrap_or(1),
    }
}

/// The stub areas of these lines, each with its default cost, in order.
fn stubs_of(
    alloc: Global,
    lines: &[StubLine],
    costs: &IndexMap<u32, u32>,
) -> Result<Vec<Stub>, OutOfMemory>
    ensures { IfOk result (λ stubs. stubs.items ≡ map (stub_made (get nat_eq costs.now)) lines.now) }
{
    let mut stubs = Vec::with_capacity(alloc, lines.len())?;
    for line in lines {
        stubs.push(stub_made(costs, *line))?;
    }
    Ok(stubs)
}

/// The stub areas of an OSPF process.
pub(crate) fn stubs_in(alloc: Global, lines: &[OspfStatement]) -> Result<Vec<Stub>, OutOfMemory>
    ensures { IfOk result (λ stubs. stubs.items ≡ stubs_in lines.now) }
{
    let table = stub_table(alloc, lines)?;
    let costs = default_costs(alloc, lines)?;
    stubs_of(alloc, table.values().as_slice(), &costs)
}
