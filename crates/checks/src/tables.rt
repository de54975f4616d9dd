//! The rule for tables: every list within its limit, nodes in preorder, groups at most 64 deep, and every row and place
//! that the drawn node or one of its descendants names inside its list.

ghost use Rattle.std.specs.Prelude.{◌≡◌, ◌<◌, ◌≤◌, is_ok, OnOk};
ghost use Rattle.drawing.specs.Tables.{node_at};
ghost use Rattle.checks.specs.Tables.{row_stands, lone_group, held_at, range_stands, few, lists_fit, table_stands, gradient_stands};

use crate::entries::Rule;
use crate::nodes::{check_fields, check_gradient_fields};
use drawing::tables::{Drawing, Kind, Node};
use std::ops::Range;

/// The most nodes, entries of any other list, and bytes of the pool.
const MOST_NODES: usize = 4096;

const MOST_ENTRIES: usize = 16384;

const MOST_BYTES: usize = 65536;

/// The most groups around one another.
const DEEPEST: usize = 64;

/// Why a table is no tree: a node that does not stand where or as it may.
#[derive(Clone, Copy)]
pub struct Broken;

/// Whether a node's row is there, and all that it names.
fn is_row(drawing: &Drawing, node: Node) -> bool
    ensures { result ≡ row_stands drawing.now node }
{
    check_fields(drawing, Rule::Place, node).is_ok()
}

/// Whether a node is a group that ends there.
fn is_lone_group(node: Node, end: usize) -> bool
    ensures { result ≡ lone_group node end }
{
    matches!(node.kind, Kind::Group) && node.end == end
}

/// How deep groups may stand among the children of the node at `index`, inside a range that ends at `to`; `None` where it
/// may have no children.
#[tactic(auto, unfolding(crate::specs::Tables::held_at))]
fn held_at(
    drawing: &Drawing,
    depth: usize,
    index: usize,
    to: usize,
) -> Result<Option<usize>, Broken>
    ensures value { result ≡ held_at drawing.now depth index to }
    ensures inside { OnOk result ((index < (node_at drawing.now index).end) × ((node_at drawing.now index).end ≤ to)) }
{
    let node = drawing.node(index);
    if node.end <= index || node.end > to || !is_row(drawing, node) {
        return Err(Broken);
    }
    match node.kind {
        Kind::Group if depth > 0 => Ok(Some(depth - 1)),
        Kind::Path | Kind::Image if node.end == index + 1 => Ok(None),
        Kind::Text if index + 1 < node.end && is_lone_group(drawing.node(index + 1), node.end) => {
            Ok(Some(depth))
        }
        _ => Err(Broken),
    }
}

/// Whether the nodes of a range follow one another and fill it exactly, groups at most `depth` deep.
fn check_range(drawing: &Drawing, depth: usize, nodes: Range<usize>) -> Result<(), Broken>
    ensures { is_ok result ≡ range_stands drawing.now depth nodes.start nodes.end }
{
    // Kept: a step can fail and looks into the node's own range first, so `iter::successors` would stand in the same loop.
    let mut index = nodes.start;
    while index < nodes.end {
        let end = drawing.node(index).end;
        if let Some(deeper) = held_at(drawing, depth, index, nodes.end)? {
            check_range(drawing, deeper, index + 1..end)?;
        }
        index = end;
    }
    if index == nodes.end {
        Ok(())
    } else {
        Err(Broken)
    }
}

fn are_few(counts: &[usize]) -> bool
    ensures { result ≡ few counts.now }
{
    counts.iter().all(|count| *count <= MOST_ENTRIES)
}

/// Whether every list is within its limit.
fn do_lists_fit(drawing: &Drawing) -> bool
    ensures { result ≡ lists_fit drawing.now }
{
    drawing.nodes.len() <= MOST_NODES
        && drawing.pool.len() <= MOST_BYTES
        && are_few(&[
            drawing.groups.len(),
            drawing.paths.len(),
            drawing.images.len(),
            drawing.texts.len(),
            drawing.chunks.len(),
            drawing.spans.len(),
            drawing.segments.len(),
            drawing.numbers.len(),
            drawing.references.len(),
            drawing.families.len(),
            drawing.shifts.len(),
            drawing.gradients.len(),
            drawing.stops.len(),
        ])
}

/// The rule at a node that is to be drawn.
pub fn is_table(drawing: &Drawing, node: usize) -> bool
    ensures { result ≡ table_stands drawing.now node }
{
    let end = drawing.node(node).end;
    do_lists_fit(drawing)
        && node < end
        && end <= drawing.nodes.len()
        && check_range(drawing, DEEPEST, node..end).is_ok()
}

/// The rule at a gradient row.
pub fn is_gradient_table(drawing: &Drawing, row: usize) -> bool
    ensures { result ≡ gradient_stands drawing.now row }
{
    do_lists_fit(drawing) && check_gradient_fields(drawing, Rule::Place, row).is_ok()
}
