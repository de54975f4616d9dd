//! The words of a script: how a line is cut into words, what numbers and keywords they say, and why one cannot be read.
#![tactic(auto)]

pub mod cursors;
pub mod failures;
pub mod floats;
pub mod numbers;
pub mod quoting;
pub mod words;
