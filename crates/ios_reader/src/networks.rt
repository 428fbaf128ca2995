ghost use Rattle.std.specs.Prelude.{◌≡◌, ◌<◌, [], ◌∷◌, ◌++◌, ℕ, true, not, length, find, filter, OnOk, IfOk};
ghost use Rattle.std.specs.Option.{option_or};
ghost use Rattle.indexmap.specs.IndexMap.{get};
ghost use Rattle.ios_reader.specs.steps.Networks.{network_said, placed_at, placed_networks, takes, is_block, block_key, same_block, is_of_block, earlier_line};
ghost use Rattle.ios_reader.specs.steps.Networks.{first_of_blocks, Ascend, has_wildcard, HasWildcards};

use crate::OutOfMemory;
use indexmap::IndexMap;
use ios_lines::ospf_line::{NetworkLine, OspfLine, OspfStatement};
use std::alloc::Global;
use std::marker::Model;

/// A good `network` line at its place among the lines of its process.
#[derive(Clone, Copy, Debug)]
pub(crate) struct PlacedNetwork {
    /// Its place, from 0.
    pub place: usize,
    /// What the line says.
    pub network: NetworkLine,
}

/// So many lines are gone through one by one.
const FEW_LINES: usize = 16;

/// The wildcard of a block of addresses, and what its addresses have in common, with the bits of the wildcard set.
type BlockKey = (u32, u32);

/// The `network` lines of an OSPF process, of which the first one that takes an address is looked up.
///
/// A few lines are gone through one by one. Of more there are tables. A wildcard without holes takes a block of
/// addresses. There are 33 such wildcards, and the first line of each block is looked up once for each of them that a
/// line has, however many lines there are. Lines whose wildcards have holes are gone through one by one.
#[derive(Drop)]
pub(crate) struct Networks {
    all: Vec<PlacedNetwork>,
    blocks: IndexMap<BlockKey, PlacedNetwork>,
    wildcards: Vec<u32>,
    others: Vec<PlacedNetwork>,
}

impl Model for Networks {
    ghost use Rattle.std.specs.Prelude.{◌<◌, List, length};
    ghost use Rattle.ios_reader.specs.declared.networks.PlacedNetwork.{PlacedNetwork};
    ghost use Rattle.ios_reader.specs.declared.networks.TheConstants.{FEW_LINES};
    ghost use Rattle.ios_reader.specs.steps.Networks.{AreNetworkTables};

    ghost Value = { List PlacedNetwork };

    ghost view = { λ n. n.all.items };

    ghost invariant = { λ n. FEW_LINES < length n.all.items → AreNetworkTables n.all.items n.blocks.entries n.wildcards.items n.others.items };
}

/// The `network` lines of an OSPF process.
pub(crate) fn networks_of(alloc: Global, lines: &[OspfStatement]) -> Result<Networks, OutOfMemory>
    ensures { IfOk result (λ n. n ≡ placed_networks 0 lines.now) }
{
    let placed = placed_networks(alloc, lines)?;
    Networks::new(alloc, placed)
}

impl Networks {
    /// These lines, which stand in the order of their places.
    fn new(alloc: Global, all: Vec<PlacedNetwork>) -> Result<Networks, OutOfMemory>
        requires { Ascend 0 all.items }
        ensures { IfOk result (λ n. n ≡ all.items) }
    {
        let tabled = tabled(all.as_slice());
        let blocks = blocks_of(alloc, tabled)?;
        let wildcards = wildcards_of(alloc, tabled)?;
        let others = others_of(alloc, tabled)?;
        Ok(Networks {
            all,
            blocks,
            wildcards,
            others,
        })
    }

    /// The first line that takes an address.
    pub fn first_taking(&self, address: u32) -> Option<PlacedNetwork>
        ensures { result ≡ find (takes address) self.now }
    {
        if self.all.len() <= FEW_LINES {
            return first_of_lines(self.all.as_slice(), address);
        }
        let block = first_of_blocks(&self.blocks, self.wildcards.as_slice(), address);
        let other = first_of_lines(self.others.as_slice(), address);
        earlier_line(block, other)
    }
}

/// The lines of which there are tables: none where they are few.
fn tabled(all: &[PlacedNetwork]) -> &[PlacedNetwork]
    ensures { FEW_LINES < length all.now → result.now ≡ all.now }
{
    if all.len() <= FEW_LINES { &[] } else { all }
}

/// The good `network` line that a line is.
fn network_said(line: &OspfLine) -> Option<NetworkLine>
    ensures { result ≡ network_said line.now }
{
    match line {
        OspfLine::Network(Ok(network)) => Some(*network),
        _ => None,
    }
}

/// Takes in a line with its place, where there is one.
fn push_placed(
    placed: &mut Vec<PlacedNetwork>,
    place: usize,
    network: Option<NetworkLine>,
) -> Result<(), OutOfMemory>
    ensures { OnOk result (placed.new.items ≡ placed.old.items ++ placed_at place network) }
{
    if let Some(network) = network {
        placed.push(PlacedNetwork { place, network })?;
    }
    Ok(())
}

/// The good `network` lines, each with its place among the lines.
fn placed_networks(
    alloc: Global,
    lines: &[OspfStatement],
) -> Result<Vec<PlacedNetwork>, OutOfMemory>
    ensures { IfOk result (λ placed. placed.items ≡ placed_networks 0 lines.now) }
{
    let mut placed = Vec::new(alloc);
    for (place, statement) in lines.iter().enumerate() {
        push_placed(&mut placed, place, network_said(&statement.says))?;
    }
    Ok(placed)
}

/// Whether a line takes the address: outside the bits of its wildcard it agrees with the line's.
fn takes(address: u32, line: &PlacedNetwork) -> bool
    ensures { result ≡ takes address line.now }
{
    address | line.network.wildcard == line.network.address | line.network.wildcard
}

/// Whether a wildcard has no holes: its ones are its last bits.
fn is_block(wildcard: u32) -> bool
    ensures { result ≡ is_block wildcard }
{
    wildcard & wildcard.wrapping_add(1) == 0
}

/// The block of a line.
fn block_key(network: NetworkLine) -> BlockKey
    ensures { result ≡ block_key network }
{
    (network.wildcard, network.address | network.wildcard)
}

/// The first line of a block, where there is one.
fn block_at(blocks: &IndexMap<BlockKey, PlacedNetwork>, key: BlockKey) -> Option<PlacedNetwork>
    ensures { result ≡ get same_block blocks.now key }
{
    match blocks.get(&key) {
        Some(line) => Some(*line),
        None => None,
    }
}

/// Takes in a line of a block, where it is the first one.
fn add_first(
    blocks: &mut IndexMap<BlockKey, PlacedNetwork>,
    line: PlacedNetwork,
) -> Result<(), OutOfMemory>
    requires { is_block line.network.wildcard ≡ true }
    ensures { OnOk result ((key : ℕ × ℕ) → get same_block blocks.new key ≡ option_or (get same_block blocks.old key) (find (is_of_block key) (line ∷ []))) }
{
    let key = block_key(line.network);
    if block_at(blocks, key).is_none() {
        blocks.insert(key, line)?;
    }
    Ok(())
}

/// Takes in a line, where it is the first one of a block.
fn add_block(
    blocks: &mut IndexMap<BlockKey, PlacedNetwork>,
    line: PlacedNetwork,
) -> Result<(), OutOfMemory>
    ensures { OnOk result ((key : ℕ × ℕ) → get same_block blocks.new key ≡ option_or (get same_block blocks.old key) (find (is_of_block key) (line ∷ []))) }
{
    if is_block(line.network.wildcard) {
        add_first(blocks, line)
    } else {
        Ok(())
    }
}

/// The first line of each block.
fn blocks_of(
    alloc: Global,
    all: &[PlacedNetwork],
) -> Result<IndexMap<BlockKey, PlacedNetwork>, OutOfMemory>
    ensures { IfOk result (λ blocks. (key : ℕ × ℕ) → get same_block blocks key ≡ find (is_of_block key) all.now) }
{
    let mut blocks = IndexMap::new(alloc);
    for line in all {
        add_block(&mut blocks, *line)?;
    }
    Ok(blocks)
}

/// Takes in a wildcard that has no holes, where it isn't there.
fn add_wildcard(wildcards: &mut Vec<u32>, wildcard: u32) -> Result<(), OutOfMemory>
    ensures there { OnOk result (is_block wildcard ≡ true → has_wildcard wildcards.new.items wildcard ≡ true) }
    ensures kept { OnOk result ((v : ℕ) → has_wildcard wildcards.old.items v ≡ true → has_wildcard wildcards.new.items v ≡ true) }
{
    if is_block(wildcard) && !wildcards.contains(&wildcard) {
        wildcards.push(wildcard)?;
    }
    Ok(())
}

/// The wildcards of some lines that have no holes.
fn wildcards_of(alloc: Global, all: &[PlacedNetwork]) -> Result<Vec<u32>, OutOfMemory>
    ensures { IfOk result (λ wildcards. HasWildcards all.now wildcards.items) }
{
    let mut wildcards = Vec::new(alloc);
    for line in all {
        add_wildcard(&mut wildcards, line.network.wildcard)?;
    }
    Ok(wildcards)
}

/// Takes in a line, where its wildcard has holes.
fn add_other(others: &mut Vec<PlacedNetwork>, line: PlacedNetwork) -> Result<(), OutOfMemory>
    ensures { OnOk result (others.new.items ≡ others.old.items ++ filter (λ l. not (is_block l.network.wildcard)) (line ∷ [])) }
{
    if !is_block(line.network.wildcard) {
        others.push(line)?;
    }
    Ok(())
}

/// The lines whose wildcards have holes.
fn others_of(alloc: Global, all: &[PlacedNetwork]) -> Result<Vec<PlacedNetwork>, OutOfMemory>
    ensures { IfOk result (λ others. others.items ≡ filter (λ l. not (is_block l.network.wildcard)) all.now) }
{
    let mut others = Vec::new(alloc);
    for line in all {
        add_other(&mut others, *line)?;
    }
    Ok(others)
}

/// Of two lines the one that stands first.
fn earlier_line(
    first: Option<PlacedNetwork>,
    second: Option<PlacedNetwork>,
) -> Option<PlacedNetwork>
    ensures { result ≡ earlier_line first second }
{
    match (first, second) {
        (None, second) => second,
        (Some(first), None) => Some(first),
        (Some(first), Some(second)) => {
            if second.place < first.place {
                Some(second)
            } else {
                Some(first)
            }
        }
    }
}

/// The first line of those that take the address and whose wildcards have no holes.
fn first_of_blocks(
    blocks: &IndexMap<BlockKey, PlacedNetwork>,
    wildcards: &[u32],
    address: u32,
) -> Option<PlacedNetwork>
    ensures { result ≡ first_of_blocks (get same_block blocks.now) wildcards.now address }
{
    let mut found = None;
    for wildcard in wildcards {
        found = earlier_line(found, block_at(blocks, (*wildcard, address | *wildcard)));
    }
    found
}

/// The first of some lines that takes the address.
fn first_of_lines(lines: &[PlacedNetwork], address: u32) -> Option<PlacedNetwork>
    ensures { result ≡ find (takes address) lines.now }
{
    for line in lines {
        if takes(address, line) {
            return Some(*line);
        }
    }
    None
}
