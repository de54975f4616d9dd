//! Tests of the checks through the public calls: a good drawing with a node of every kind, and for every rule and field
//! that drawing broken in just that place, with the fault that is expected. Pairs of faults show the order.
#![tactic(auto)]

#[cfg(test)]
mod faults;
#[cfg(test)]
mod limits;
#[cfg(test)]
mod order;
#[cfg(test)]
mod sheets;
