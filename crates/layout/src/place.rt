// Text places, block places, block numbers and links have a type each, so that the type checker refuses one for another.
pub use text::TextPlace;

// A place in a block, counted from the block's start.
#[derive(Clone, Copy)]
pub struct BlockPlace(pub u32);

// A block's number in its level, counted from 0.
#[derive(Clone, Copy)]
pub struct BlockNumber(pub u32);

// A record's link. Of a kept block: the number of its first child or, on the last level, of its first leaf byte. Of a pointing block: its target's number.
#[derive(Clone, Copy)]
pub struct Link(pub u32);
