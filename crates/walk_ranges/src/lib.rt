// Where the bytes of a text continue in the tree: the end of a path among the leaf bytes, how far the leaf bytes of the following blocks continue it, and the
// segments of a long span.
#![tactic(auto)]

pub mod leaf_end;
pub mod segments;
