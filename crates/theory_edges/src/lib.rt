// Theorems on the edges of a layout 2 tree: what a check of local equations shows, and what short spans rest on. There are no functions.
#![tactic(auto)]
