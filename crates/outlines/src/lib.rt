//! The outline of a node: the elements that its rows mean. There are definitions only, and no code so far.
#![tactic(auto)]
