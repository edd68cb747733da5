// The automaton of a prefix: its states, and the bytes that a scan for a row that starts with the prefix may pass over.
#![tactic(auto)]

pub mod prefix_scan;
pub mod prefix_state;
