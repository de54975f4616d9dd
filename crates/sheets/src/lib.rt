//! A drawing that a script writes out: its lists, and the reader of the statements that add to them.
//!
//! Everything that a drawing can hold can be said, broken entries too; whether a drawing may be drawn is for the checks.
#![tactic(auto)]

mod cases;
mod entries;
mod keywords;
mod lists;
mod paints;
mod places;
mod rows;
mod shapes;
pub mod sheet;
mod spans;
