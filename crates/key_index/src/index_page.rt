//! The bytes of an index page.
ghost use Rattle.std.specs.Prelude.{◌≡◌, ◌+◌, ◌++◌, ◌^◌, ◌<◌, ◌≤◌, All, IfOk, OnOk, length};
ghost use Rattle.std.specs.Int.{w16, w32, to_be_bytes};
ghost use Rattle.std.specs.List.{flat_map};
ghost use Rattle.heap_page.specs.Pages.{zeros};
ghost use Rattle.key_index.specs.Bytes.{head_of, item_bytes, page_of, tail_bytes};
ghost use Rattle.key_index.specs.Nodes.{AreKeys, IsNode, node_item, node_items};

use crate::node::Node;
use heap_page::Page;
use rows::{KeyEntry, put_value};
use std::alloc::Global;
use xp_outside::{NoMemory, PAGE};

// Adds the head of a page.
#[tactic(auto, unfolding(crate::specs::Bytes::head_of))]
fn put_head(
    out: &mut Vec<u8>,
    file: u32,
    number: u32,
    level: u16,
    count: u16,
) -> Result<(), NoMemory>
    ensures { OnOk result (out.new.items ≡ out.old.items ++ head_of file number level count) }
{
    out.extend_from_slice(b"XPIX")?;
    out.extend_from_slice(&1u16.to_be_bytes())?;
    out.extend_from_slice(&count.to_be_bytes())?;
    out.extend_from_slice(&file.to_be_bytes())?;
    out.extend_from_slice(&number.to_be_bytes())?;
    out.extend_from_slice(&level.to_be_bytes())?;
    out.extend_from_slice(&0u16.to_be_bytes())?;
    Ok(())
}

// Adds what follows a key on a leaf.
fn put_leaf_tail(out: &mut Vec<u8>, node: Node) -> Result<(), NoMemory>
    requires { node.slot < 65536 }
    ensures { OnOk result (out.new.items ≡ out.old.items ++ (to_be_bytes w32 node.page ++ to_be_bytes w16 node.slot)) }
{
    out.extend_from_slice(&node.page.to_be_bytes())?;
    out.extend_from_slice(&(node.slot as u16).to_be_bytes())?;
    Ok(())
}

// Adds what follows a key above the leaves.
fn put_above_tail(out: &mut Vec<u8>, node: Node) -> Result<(), NoMemory>
    ensures { OnOk result (out.new.items ≡ out.old.items ++ (to_be_bytes w32 node.page ++ to_be_bytes w32 node.place)) }
{
    out.extend_from_slice(&node.page.to_be_bytes())?;
    out.extend_from_slice(&node.place.to_be_bytes())?;
    Ok(())
}

// Adds an item.
fn put_node(out: &mut Vec<u8>, entries: &[KeyEntry], node: Node, level: u32) -> Result<(), NoMemory>
    requires keys { AreKeys entries.now }
    requires node { IsNode entries.now node }
    ensures { OnOk result (out.new.items ≡ out.old.items ++ item_bytes level (node_item entries.now node)) }
{
    put_value(out, &entries[node.place as usize].key)?;
    if level == 0 {
        put_leaf_tail(out, node)
    } else {
        put_above_tail(out, node)
    }
}

// Adds items without gaps.
fn put_nodes(
    out: &mut Vec<u8>,
    entries: &[KeyEntry],
    nodes: &[Node],
    level: u32,
) -> Result<(), NoMemory>
    requires keys { AreKeys entries.now }
    requires nodes { All (IsNode entries.now) nodes.now }
    ensures { OnOk result (out.new.items ≡ out.old.items ++ flat_map (item_bytes level) (node_items entries.now nodes.now)) }
{
    for node in nodes {
        put_node(out, entries, *node, level)?;
    }
    Ok(())
}

// Adds zeros.
fn put_zeros(out: &mut Vec<u8>, count: usize) -> Result<(), NoMemory>
    ensures { OnOk result (out.new.items ≡ out.old.items ++ zeros count) }
{
    for _place in 0..count {
        out.push(0)?;
    }
    Ok(())
}

// The page with some items.
pub(crate) fn page_with(
    alloc: Global,
    entries: &[KeyEntry],
    nodes: &[Node],
    file: u32,
    number: u32,
    level: u32,
) -> Result<Page, NoMemory>
    requires keys { AreKeys entries.now }
    requires nodes { All (IsNode entries.now) nodes.now }
    requires few { length nodes.now < 65536 }
    requires level { level < 65536 }
    requires fits { length (flat_map (item_bytes level) (node_items entries.now nodes.now)) ≤ 8172 }
    ensures { IfOk result (λ page. page ≡ page_of file number level (node_items entries.now nodes.now)) }
{
    let mut out = Vec::with_capacity(alloc, PAGE)?;
    put_head(&mut out, file, number, level as u16, nodes.len() as u16)?;
    put_nodes(&mut out, entries, nodes, level)?;
    let free = PAGE - out.len();
    put_zeros(&mut out, free)?;
    Ok(Page::of_vec(out))
}
