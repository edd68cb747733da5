// The position of a walk: structs of 8 bytes, so that each is passed in a register.
use layout::place::{BlockNumber, BlockPlace};

// A level, with the length b of its full blocks.
#[derive(Clone, Copy)]
pub struct LevelAt {
    pub level: u32,
    pub b: u32,
}

// A block of a level and a place in the block.
#[derive(Clone, Copy)]
pub struct BlockPosition {
    pub block: BlockNumber,
    pub place: BlockPlace,
}

// The block some steps after another one.
#[derive(Clone, Copy)]
pub struct BlockOffset {
    pub first: BlockNumber,
    pub steps: u32,
}
