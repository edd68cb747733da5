// Theorems on the counts of a tree: what a check of local equations shows, and what count and find rest on. There are no functions.
#![tactic(auto)]
