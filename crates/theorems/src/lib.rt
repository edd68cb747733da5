// The theorems about the public calls, over their contracts. There are no functions, and no crate depends on this one.
#![tactic(auto)]
