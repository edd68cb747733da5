// Definitions and laws of the block tree format: all of this crate is in specs/.
#![tactic(auto)]
