// Writes a tree level by level: the header, level 0, each next level, the leaf bytes; all but the contents of the records.
#![tactic(auto)]

mod header_written;
mod leaf;
pub mod level_step;
