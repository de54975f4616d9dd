//! One rule over the row that a node names.

ghost use Rattle.std.specs.Prelude.{◌≡◌};
ghost use Rattle.checks.specs.Entries.{first_at, by_rules};
ghost use Rattle.checks.specs.Rows.{node_fields, gradient_fields};

use crate::entries::{Checker, Rule};
use drawing::faults::AttributeFault;
use drawing::tables::{Drawing, Kind, Node};

pub fn check_fields(drawing: &Drawing, rule: Rule, node: Node) -> Result<(), AttributeFault>
    ensures { result ≡ first_at rule (node_fields drawing.now node) }
{
    let checker = Checker { drawing, rule };
    let row = node.row;
    match node.kind {
        Kind::Group => {
            checker.check_row(drawing.groups, row)?;
            checker.check_group(&drawing.group(row))
        }
        Kind::Path => {
            checker.check_row(drawing.paths, row)?;
            checker.check_path(&drawing.path(row))
        }
        Kind::Image => {
            checker.check_row(drawing.images, row)?;
            checker.check_image(&drawing.image(row))
        }
        Kind::Text => {
            checker.check_row(drawing.texts, row)?;
            checker.check_text_row(&drawing.text(row))
        }
    }
}

pub fn check_gradient_fields(
    drawing: &Drawing,
    rule: Rule,
    row: usize,
) -> Result<(), AttributeFault>
    ensures { result ≡ first_at rule (gradient_fields drawing.now row) }
{
    let checker = Checker { drawing, rule };
    checker.check_row(drawing.gradients, row)?;
    checker.check_base_gradient(&drawing.gradient(row))
}

/// The rules for values, one after the other, each over the whole row.
pub fn check_values(drawing: &Drawing, node: Node) -> Result<(), AttributeFault>
    ensures { result ≡ by_rules (node_fields drawing.now node) }
{
    check_fields(drawing, Rule::Id, node)?;
    check_fields(drawing, Rule::Empty, node)?;
    check_fields(drawing, Rule::Number, node)?;
    check_fields(drawing, Rule::Text, node)?;
    check_fields(drawing, Rule::Family, node)
}
