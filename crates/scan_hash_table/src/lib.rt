// A hash table in the caller's words: the blocks and pairs of a level by their fingerprints, and lookups of the text's windows.
#![tactic(auto)]

mod chain_head;
pub mod entry;
pub mod item;
pub mod lookup;

use text::TextPlace;

// The items of a level, its blocks and pairs, and how the table is divided. Item 2 i is block i, item 2 i + 1 the pair of blocks
// i and i + 1.
#[derive(Clone, Copy)]
pub struct Items {
    // Where the records of the level begin in the buffer that is written, and how many bytes each has.
    pub records: u32,
    pub step: u32,
    // The bytes of a full block.
    pub size: u32,
    // How many items there are: the table has three words for each, then the heads of the chains.
    pub items: u32,
    pub heads: u32,
    // gives the base of the fingerprints
    pub seed: u32,
}

// The bytes of an item: where they start, and how many they are.
#[derive(Clone, Copy)]
pub struct ItemBytes {
    pub start: TextPlace,
    pub length: u32,
}

// A probe into the table: the fingerprint of bytes of the text, where they start, and how many they are.
#[derive(Clone, Copy)]
pub struct Probe {
    pub fingerprint: u32,
    pub start: TextPlace,
    pub length: u32,
}
