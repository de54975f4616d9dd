//! Plates: an SVG text being written, with some elements still open.
//!
//! Each call is one step of the plate's state, for all arguments: the step function in `specs/Steps.antt` says the answer,
//! the fault, and every byte held afterwards. A refused call changes nothing.
#![tactic(auto)]

pub mod calls;
pub mod elements;
mod marks;
pub mod plates;
pub mod readings;
pub mod theorems;
