// Theorems on accepted trees: all of this crate is in specs/.
#![tactic(auto)]
