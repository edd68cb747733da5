// Writes the record of a block.
ghost use Rattle.std.specs.Prelude.{◌≡◌, ◌+◌, ◌-◌, ◌*◌, ◌≤◌, ◌<◌, length};
ghost use Rattle.text.specs.Text.{substring, count_in};
ghost use Rattle.format.specs.Layout.{max_text, word_at, plain_bytes, counted_bytes, header_length};
ghost use Rattle.format.specs.WordLaws.{put_three};
ghost use Rattle.format.specs.Blocks.{tree_of};
ghost use Rattle.theory_built.specs.Structure.{width_of};
ghost use Rattle.build_records.specs.WritesOnlyTree.{WritesOnlyTree, AgreesOn};
ghost use Rattle.build_records.specs.State.{record_settings_of, Writing, place_at};
ghost use Rattle.build_records.specs.RecordWords.{before_word, edge_written};

use crate::level_written;
use crate::level_written::Level;
use layout::place::{BlockNumber, BlockPlace, Link, TextPlace};
use layout::{record, settings, word};

// The values of a record, and where the bytes are that it counts.
#[derive(Clone, Copy)]
pub struct Block {
    pub start: TextPlace,
    pub length: u32,
    // The start of its parent.
    pub parent: TextPlace,
    pub kind: u32,
    pub link: Link,
    // The start of the linked block.
    pub from: TextPlace,
    pub gap: BlockPlace,
}

// Writes the counts of one byte: before the block in its parent, inside it, and in the gap of the linked block.
fn put_count(out: &mut [u8], text: &[u8], byte: u8, at: usize, block: Block, before: u32)
    requires { (at + counted_bytes ≤ length out.old) × (length text.now ≤ max_text)
        × (block.start.0 + block.length ≤ length text.now) × (block.from.0 + block.gap.0 ≤ length text.now) }
    ensures { out.new ≡ put_three out.old at before
        (count_in byte (substring text.now block.start.0 block.length))
        (count_in byte (substring text.now block.from.0 block.gap.0)) }
{
    let inside = byte_slices::count_in(text, block.start.0 as usize, block.length, byte);
    let skip = byte_slices::count_in(text, block.from.0 as usize, block.gap.0, byte);
    word::put_three(out, at, before, inside, skip);
}

// The count before a block, where its record is at `at`: 0 at the start of its parent, else the counts before and inside of the block to the left, one record
// earlier.
fn count_before(out: &[u8], at: usize, size: usize, block: Block) -> u32
    requires { (block.start.0 ≡ block.parent.0 → ⊥) → (size ≤ at) × (at - size + 8 ≤ length out.now)
        × (word_at out.now (at - size) + word_at out.now (at - size + 4) < 4294967296) }
    ensures { result ≡ before_word out.now (at - size) block.start.0 block.parent.0 }
{
    if block.start.0 == block.parent.0 {
        return 0;
    }
    let left = at - size;
    word::read(out, left) + word::read(out, left + 4)
}

// The numbers of a block and of a counted byte, which select three words of a record.
#[derive(Clone, Copy)]
struct Slot {
    block: BlockNumber,
    byte: usize,
}

// Writes the counts of a block for one counted byte.
fn put_count_of(out: &mut [u8], text: &[u8], counted: &[u8], level: Level, block: Block, of: Slot)
    requires { Writing (record_settings_of level.settings counted.now) text.now out.old level of.block.0 block
        × (of.byte < length counted.now) }
    ensures writes_only_tree { WritesOnlyTree (tree_of (record_settings_of level.settings counted.now) text.now) out.old
        out.new }
    ensures agrees_on { AgreesOn (tree_of (record_settings_of level.settings counted.now) text.now) out.new
        (place_at (record_settings_of level.settings counted.now) text.now level.number of.block.0
        + plain_bytes + counted_bytes * of.byte)
        (place_at (record_settings_of level.settings counted.now) text.now level.number of.block.0
        + plain_bytes + counted_bytes * of.byte + counted_bytes) }
{
    let i = of.block;
    let c = of.byte;
    let at = level_written::place(counted, level, i)
        + record::PLAIN_BYTES
        + record::COUNTED_BYTES * c;
    let size = level_written::record_size(counted, level.settings);
    let b = count_before(out, at, size, block);
    put_count(out, text, counted[c], at, block, b);
}

// Writes the counts of a block for each counted byte.
fn put_counts(
    out: &mut [u8],
    text: &[u8],
    counted: &[u8],
    level: Level,
    i: BlockNumber,
    block: Block,
)
    requires { Writing (record_settings_of level.settings counted.now) text.now out.old level i.0 block }
    ensures writes_only_tree { WritesOnlyTree (tree_of (record_settings_of level.settings counted.now) text.now) out.old
        out.new }
    ensures agrees_on { AgreesOn (tree_of (record_settings_of level.settings counted.now) text.now) out.new
        (place_at (record_settings_of level.settings counted.now) text.now level.number i.0 + plain_bytes)
        (place_at (record_settings_of level.settings counted.now)
        text.now level.number i.0 + plain_bytes + counted_bytes * length counted.now) }
{
    for c in 0..counted.len() {
        let of = Slot { block: i, byte: c };
        put_count_of(out, text, counted, level, block, of);
    }
}

// Writes an edge of m bytes: `own` bytes of the text, then zeros.
fn put_edge(out: &mut [u8], text: &[u8], at: usize, from: TextPlace, own: usize, m: usize)
    requires { (at + m ≤ length out.old) × (from.0 + own ≤ length text.now) × (own ≤ m) }
    ensures { out.new ≡ edge_written out.old at text.now from.0 own m }
{
    byte_slices::copy(out, at, text, from.0 as usize, own);
    byte_slices::clear_at(out, at + own, m - own);
}

// Writes the edges of a block after its counts: its first m bytes and its last m bytes.
fn put_edges(
    out: &mut [u8],
    text: &[u8],
    counted: &[u8],
    level: Level,
    i: BlockNumber,
    block: Block,
)
    requires { Writing (record_settings_of level.settings counted.now) text.now out.old level i.0 block }
    ensures writes_only_tree { WritesOnlyTree (tree_of (record_settings_of level.settings counted.now) text.now) out.old
        out.new }
    ensures agrees_on { AgreesOn (tree_of (record_settings_of level.settings counted.now) text.now) out.new
        (place_at (record_settings_of level.settings counted.now)
        text.now level.number i.0 + plain_bytes + counted_bytes * length counted.now)
        (place_at (record_settings_of level.settings counted.now) text.now level.number (i.0 + 1)) }
{
    let m = level.settings.leaf as usize;
    let short = byte_slices::min(level.settings.leaf, block.length);
    let own = short as usize;
    let at = level_written::place(counted, level, i)
        + record::PLAIN_BYTES
        + record::COUNTED_BYTES * counted.len();
    let last = TextPlace(block.start.0 + (block.length - short));
    put_edge(out, text, at, block.start, own, m);
    put_edge(out, text, at + m, last, own, m);
}

// Writes the record of a block.
fn put_record(
    out: &mut [u8],
    text: &[u8],
    counted: &[u8],
    level: Level,
    i: BlockNumber,
    block: Block,
)
    requires { Writing (record_settings_of level.settings counted.now) text.now out.old level i.0 block }
    ensures writes_only_tree { WritesOnlyTree (tree_of (record_settings_of level.settings counted.now) text.now) out.old
        out.new }
    ensures agrees_on { AgreesOn (tree_of (record_settings_of level.settings counted.now) text.now) out.new
        header_length (place_at (record_settings_of level.settings counted.now) text.now level.number (i.0 + 1)) }
{
    let at = level_written::place(counted, level, i);
    word::put_three(
        out,
        at + record::KIND_AT,
        block.kind,
        block.link.0,
        block.gap.0,
    );
    put_counts(out, text, counted, level, i, block);
    put_edges(out, text, counted, level, i, block);
}

// Writes the record of a block and returns the number of its children, or of its leaf bytes on the last level; 0 if it points.
pub fn put_block(
    out: &mut [u8],
    text: &[u8],
    counted: &[u8],
    level: Level,
    i: BlockNumber,
    block: Block,
) -> u32
    requires { Writing (record_settings_of level.settings counted.now) text.now out.old level i.0 block }
    ensures value { result ≡ width_of (record_settings_of level.settings counted.now) text.now level.number i.0 }
    ensures writes_only_tree { WritesOnlyTree (tree_of (record_settings_of level.settings counted.now) text.now) out.old
        out.new }
    ensures agrees_on { AgreesOn (tree_of (record_settings_of level.settings counted.now) text.now) out.new
        header_length (place_at (record_settings_of level.settings counted.now) text.now level.number (i.0 + 1)) }
{
    put_record(out, text, counted, level, i, block);
    if block.kind != 0 {
        return 0;
    }
    if level.number + 1 == level.settings.levels {
        return block.length;
    }
    settings::pieces(block.length, level.below)
}
