// Writes a level: the starts of its blocks, and their records once the marking of each block is known.
#![tactic(auto)]

pub mod below;
pub mod level_written;
pub mod record_written;
