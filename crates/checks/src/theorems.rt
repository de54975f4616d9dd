//! What is proved of the definitions, each as the contract of a function that does nothing.

ghost use Rattle.checks.specs.Sound.{DrawStands, GradientStands};
ghost use Rattle.checks.specs.BareNames.{BareNamesStand};

/// A node is accepted exactly when the drawing is sound there; and a refusal names the first entry that breaks its rule.
pub fn draw_check_stands()
    ensures { DrawStands }
{}

/// The same for a gradient row.
pub fn gradient_check_stands()
    ensures { GradientStands }
{}

/// A family's name is bare exactly when it is identifiers joined by single spaces, and no reserved word.
pub fn bare_names_stand()
    ensures { BareNamesStand }
{}
