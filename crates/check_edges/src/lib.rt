// Question 9 for edges.
#![tactic(auto)]

pub mod edges_match;
pub mod equal;
