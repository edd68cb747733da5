// Theorems about the block tree of a text: all of this crate is in specs/.
#![tactic(auto)]
