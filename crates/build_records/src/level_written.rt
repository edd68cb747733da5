// A level of the tree while it is written.
ghost use Rattle.std.specs.Prelude.{◌≡◌, ◌+◌, ◌*◌, ◌≤◌, length};
ghost use Rattle.theory_built.specs.BlockSizes.{max_table};
ghost use Rattle.format.specs.Layout.{max_text, max_leaf, max_counted, word_at, plain_bytes};
ghost use Rattle.format.specs.SizeLaws.{max_record};
ghost use Rattle.format.specs.Blocks.{record_bytes};
ghost use Rattle.build_records.specs.RecordPlaces.{record_place};
ghost use Rattle.build_records.specs.State.{record_settings_of, BlockNext, SubstringIs};

use layout::place::{BlockNumber, TextPlace};
use layout::settings::Settings;
use layout::{cut, record, word};

#[derive(Clone, Copy)]
pub struct Level {
    pub settings: Settings,
    // The number of the level, from 0.
    pub number: u32,
    // The block lengths of the level above, of this level and of the level below.
    pub above: u32,
    pub size: u32,
    pub below: u32,
    // The number of its blocks, and the offset of their records.
    pub count: u32,
    pub table: u32,
}

// The bytes of a block: their place and their number.
#[derive(Clone, Copy)]
pub struct Substring {
    pub start: TextPlace,
    pub length: u32,
}

// The number of bytes of a record: its words and two edges.
pub fn record_size(counted: &[u8], s: Settings) -> usize
    requires { (length counted.now ≤ max_counted) × (s.leaf ≤ max_leaf) }
    ensures { (result ≡ record_bytes (record_settings_of s counted.now)) × (plain_bytes ≤ result) × (result ≤ max_record) }
{
    let edge = s.leaf as usize;
    record::PLAIN_BYTES + record::COUNTED_BYTES * counted.len() + (edge + edge)
}

// The offset of the record of a block.
pub fn place(counted: &[u8], level: Level, block: BlockNumber) -> usize
    requires { (length counted.now ≤ max_counted) × (level.table ≤ max_table) × (block.0 ≤ max_text) × (level.settings.leaf ≤ max_leaf) }
    ensures { (result ≡ record_place level.table block.0 (record_settings_of level.settings counted.now))
        × (result ≤ max_table + max_record * max_text) }
{
    level.table as usize + block.0 as usize * record_size(counted, level.settings)
}

// The start of a block, read from its record.
pub fn start(counted: &[u8], out: &[u8], level: Level, block: BlockNumber) -> TextPlace
    requires { (length counted.now ≤ max_counted) × (level.table ≤ max_table) × (block.0 ≤ max_text) × (level.settings.leaf ≤ max_leaf)
        × (record_place level.table block.0 (record_settings_of level.settings counted.now) + 4 ≤ length out.now) }
    ensures { result.0 ≡ word_at out.now (record_place level.table block.0 (record_settings_of level.settings counted.now)) }
{
    TextPlace(word::read(out, place(counted, level, block)))
}

// The bytes of a block of a level whose starts have been written.
pub fn substring_of(
    text: &[u8],
    counted: &[u8],
    out: &[u8],
    level: Level,
    i: BlockNumber,
) -> Substring
    requires { BlockNext (record_settings_of level.settings counted.now) text.now out.now level i.0 }
    ensures { SubstringIs (record_settings_of level.settings counted.now) text.now level.number i.0 result }
{
    let start = start(counted, out, level, i);
    Substring {
        start,
        length: cut::length_from(text.len() as u32, start, level.size),
    }
}
