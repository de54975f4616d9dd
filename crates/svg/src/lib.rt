//! SVG as it is read: values, properties, inheritance. No code runs here but functions whose contracts are theorems.
#![tactic(auto)]

ghost use Rattle.svg.specs.Samples.{SamplesStand};

/// Known texts read as their table says, and those that are none are not read.
pub fn samples_stand()
    ensures { SamplesStand }
{}
