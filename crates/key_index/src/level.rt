//! The levels of an index, one from the other.
ghost use Rattle.std.specs.Prelude.{◌≡◌, ◌+◌, ◌*◌, ◌^◌, ◌<◌, ◌≤◌, All, IfOk, length};
ghost use Rattle.key_index.specs.Bytes.{weight};
ghost use Rattle.key_index.specs.Nodes.{AreKeys, IsLevel, IsNode, leaf_nodes, level_blocks, node_item, nodes_over, starts_of};

use crate::node::{Level, Node};
use rows::{KeyEntry, value_size};
use std::alloc::Global;
use xp_outside::{NoMemory, PAGE};

// How many bytes an item takes on a page of this level.
fn node_size(entries: &[KeyEntry], node: Node, level: u32) -> u32
    requires keys { AreKeys entries.now }
    requires node { IsNode entries.now node }
    ensures value { result ≡ weight level (node_item entries.now node) }
    ensures small { result ≤ 2010 }
{
    let key = value_size(&entries[node.place as usize].key);
    if level == 0 { key + 6 } else { key + 8 }
}

// The items of the leaves.
fn leaves(alloc: Global, entries: &[KeyEntry]) -> Result<Vec<Node>, NoMemory>
    requires { length entries.now ≤ 1000000 }
    ensures { IfOk result (λ nodes. nodes.items ≡ leaf_nodes 0 entries.now) }
{
    let mut nodes = Vec::with_capacity(alloc, entries.len())?;
    for (place, entry) in entries.iter().enumerate() {
        nodes.push(Node {
            place: place as u32,
            page: entry.page,
            slot: entry.slot,
        })?;
    }
    Ok(nodes)
}

// The places at which the pages of a level begin: a new one where the next item doesn't fit.
fn cut(
    alloc: Global,
    entries: &[KeyEntry],
    nodes: &[Node],
    level: u32,
) -> Result<Vec<u32>, NoMemory>
    requires keys { AreKeys entries.now }
    requires nodes { All (IsNode entries.now) nodes.now }
    requires some { 0 < length nodes.now }
    requires few { length nodes.now ≤ 2000000 }
    ensures { IfOk result (λ starts. starts.items ≡ starts_of 0 (level_blocks entries.now nodes.now level)) }
{
    let mut starts = vec![in alloc; 0u32]?;
    let mut used = 0u32;
    for (place, node) in nodes.iter().enumerate() {
        let size = node_size(entries, *node, level);
        if used + size <= PAGE as u32 - 20 {
            used += size;
        } else {
            starts.push(place as u32)?;
            used = size;
        }
    }
    Ok(starts)
}

// The items over the pages of a level.
fn over(alloc: Global, nodes: &[Node], starts: &[u32], base: u32) -> Result<Vec<Node>, NoMemory>
    requires inside { All (λ start. start < length nodes.now) starts.now }
    requires small { base + length starts.now < 2 ^ 32 }
    ensures { IfOk result (λ found. found.items ≡ nodes_over base nodes.now starts.now) }
{
    let mut found = Vec::with_capacity(alloc, starts.len())?;
    for (page, start) in starts.iter().enumerate() {
        found.push(Node {
            place: nodes[*start as usize].place,
            page: base + page as u32,
            slot: 0,
        })?;
    }
    Ok(found)
}

// The level of the leaves.
pub(crate) fn first_level(alloc: Global, entries: &[KeyEntry]) -> Result<Level, NoMemory>
    requires keys { AreKeys entries.now }
    requires slots { All (λ e. e.slot < 65536) entries.now }
    requires some { 0 < length entries.now }
    requires few { length entries.now ≤ 1000000 }
    ensures level { IfOk result (IsLevel entries.now) }
    ensures first { IfOk result (λ level. level.base ≡ 0) }
{
    let nodes = leaves(alloc, entries)?;
    let starts = cut(alloc, entries, &nodes, 0)?;
    Ok(Level {
        nodes,
        starts,
        number: 0,
        base: 0,
    })
}

// The level over one that has several pages.
pub(crate) fn level_above(
    alloc: Global,
    entries: &[KeyEntry],
    level: &Level,
) -> Result<Level, NoMemory>
    requires keys { AreKeys entries.now }
    requires few { length entries.now ≤ 1000000 }
    requires level { IsLevel entries.now level.now }
    requires several { 1 < length level.now.starts.items }
    ensures above { IfOk result (IsLevel entries.now) }
    ensures fewer { IfOk result (λ found. length found.nodes.items < length level.now.nodes.items) }
    ensures follows { IfOk result (λ found. found.base ≡ level.now.base + length level.now.starts.items) }
{
    let base = level.base + level.starts.len() as u32;
    let number = level.number + 1;
    let nodes = over(alloc, &level.nodes, &level.starts, level.base)?;
    let starts = cut(alloc, entries, &nodes, number)?;
    Ok(Level {
        nodes,
        starts,
        number,
        base,
    })
}
