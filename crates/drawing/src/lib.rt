//! What calls are made of: the tables of a drawing, the options of a call, and the faults with which one is refused.
#![tactic(auto)]

mod defaults;
pub mod faults;
pub mod keywords;
pub mod names;
pub mod options;
pub mod rows;
pub mod tables;
