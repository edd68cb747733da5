// The walk of a short span; edges give the bytes where it crosses a border.
#![tactic(auto)]

pub mod gather;
mod packed;
