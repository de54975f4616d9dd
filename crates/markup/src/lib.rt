//! XML as it is written: a pen over a store, escapes, attributes; and what it reads as.
//!
//! Writers never fail. A pen writes what fits and remembers whether a byte was lost; the call that began it settles it in
//! the end, and cuts the store back where not all fitted. So each writer's contract is one equation: the state of the pen
//! after it is the state before it, after the bytes that the definition in `specs/` names.
#![tactic(auto)]

pub mod attributes;
pub mod colors;
pub mod elidables;
pub mod escapes;
pub mod lists;
pub mod matrices;
pub mod numbers;
pub mod pens;
pub mod quotes;
pub mod readings;
pub mod references;
pub mod tags;
pub mod texts;
pub mod values;
