// A tree without its edges, and its theorems. All of this crate is in specs/ and proofs/.
#![tactic(auto)]
