//! The checks: whether the values that a call brings keep their rules, and else which one is broken and where.
//!
//! A check writes nothing. Its answer equals a definition in `specs/` for all arguments, and `theorems` says what these
//! definitions mean: a drawing is accepted exactly when every entry of it keeps its rule.
#![tactic(auto)]

pub mod calls;
mod entries;
pub mod families;
pub mod ids;
mod nodes;
pub mod numbers;
mod paints;
pub mod settings;
mod shapes;
mod spans;
mod tables;
pub mod texts;
pub mod theorems;
pub mod verdicts;
