//! The checks of a whole call: the tables first, then the values, node by node in table order.
//!
//! The answer is the first fault in this order: the table rule, which names the node that is drawn; then at each node the
//! rules for ids, empty values, numbers, texts and families, each over all the fields of its row before the next.

ghost use Rattle.std.specs.Prelude.{◌≡◌};
ghost use Rattle.checks.specs.Calls.{node_verdict, draw_verdict, gradient_verdict};

use crate::entries::Rule;
use crate::nodes::{check_gradient_fields, check_values};
use crate::tables::{is_gradient_table, is_table};
use crate::verdicts::found_at;
use drawing::faults::{Fault, NodeFault};
use drawing::tables::Drawing;

#[tactic(auto, unfolding(crate::specs::Calls::node_verdict))]
fn check_node(drawing: &Drawing, index: usize) -> Result<(), NodeFault>
    ensures { result ≡ node_verdict drawing.now index }
{
    let values = check_values(drawing, drawing.node(index));
    Ok(found_at(index, values)?)
}

/// Whether a node of a drawing can be drawn.
pub fn check_draw(drawing: &Drawing, node: usize) -> Result<(), Fault>
    ensures { result ≡ draw_verdict drawing.now node }
{
    if !is_table(drawing, node) {
        return Err(Fault::Table(Some(node)));
    }
    for index in node..drawing.node(node).end {
        check_node(drawing, index)?;
    }
    Ok(())
}

/// Whether a gradient row of a drawing can be written. It has nothing but numbers.
pub fn check_gradient(drawing: &Drawing, row: usize) -> Result<(), Fault>
    ensures { result ≡ gradient_verdict drawing.now row }
{
    if !is_gradient_table(drawing, row) {
        return Err(Fault::Table(None));
    }
    Ok(check_gradient_fields(drawing, Rule::Number, row)?)
}
