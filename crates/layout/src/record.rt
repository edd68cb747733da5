// The fields of a record, read from their places in the tree.
ghost use Rattle.std.specs.Prelude.{◌≡◌, ◌+◌, ◌*◌, ◌^◌, ◌≤◌, ◌<◌, length};
ghost use Rattle.format.specs.Layout.{start_field, kind_field, link_field, gap_field, before_field, inside_field, skip_field, field_bytes, max_levels, max_counted};
ghost use Rattle.format.specs.SizeLaws.{max_record};
ghost use Rattle.format.specs.Layout.{header_length};
ghost use Rattle.format.specs.Layout as at;
ghost use Rattle.layout.specs.Record.{FieldIn, EdgesIn};

use crate::place::{BlockNumber, BlockPlace, Link, TextPlace};
use crate::{header, word};

// Word numbers in a record. Words of every record.
pub const START: u32 = 0;

pub const KIND: u32 = 1;

pub const LINK: u32 = 2;

pub const GAP: u32 = 3;

pub const PLAIN_WORDS: u32 = 4;

// Words for each counted byte.
pub const BEFORE: u32 = PLAIN_WORDS;

pub const INSIDE: u32 = PLAIN_WORDS + 1;

pub const SKIP: u32 = PLAIN_WORDS + 2;

pub const COUNTED_WORDS: u32 = 3;

// The sizes of these words in bytes, and the offsets of two of them in a record.
pub const PLAIN_BYTES: usize = 4 * PLAIN_WORDS as usize;

pub const COUNTED_BYTES: usize = 4 * COUNTED_WORDS as usize;

pub const KIND_AT: usize = 4 * KIND as usize;

pub const LINK_AT: usize = 4 * LINK as usize;

// The number of blocks of a level.
pub fn level_count(t: &[u8], level: u32) -> u32
    requires { (level < max_levels) × (header_length ≤ length t.now) }
    ensures { result ≡ at.level_count t.now level }
{
    word::read(t, header::COUNTS_AT + header::PAIR * level as usize)
}

// Word f of the record of a block, where records have `size` bytes.
pub fn field(t: &[u8], size: u32, level: u32, block: BlockNumber, f: u32) -> u32
    requires { FieldIn t.now size level block.0 f }
    ensures { result ≡ at.field t.now level block.0 f }
{
    let table = word::read(t, header::OFFSETS_AT + header::PAIR * level as usize) as usize;
    word::read(t, table + block.0 as usize * size as usize + 4 * f as usize)
}

// Where a block starts in the text.
pub fn start(t: &[u8], size: u32, level: u32, block: BlockNumber) -> TextPlace
    requires { FieldIn t.now size level block.0 start_field }
    ensures { result.0 ≡ at.start t.now level block.0 }
{
    TextPlace(field(t, size, level, block, START))
}

// 0 for a kept block, 1 for one that points.
pub fn kind(t: &[u8], size: u32, level: u32, block: BlockNumber) -> u32
    requires { FieldIn t.now size level block.0 kind_field }
    ensures { result ≡ at.kind t.now level block.0 }
{
    field(t, size, level, block, KIND)
}

// The link. A kept block: the number of its first child; on the last level, of its first leaf byte. A pointing block: the number of the linked block.
pub fn link(t: &[u8], size: u32, level: u32, block: BlockNumber) -> Link
    requires { FieldIn t.now size level block.0 link_field }
    ensures { result.0 ≡ at.link t.now level block.0 }
{
    Link(field(t, size, level, block, LINK))
}

// The gap (offset): the place in the linked block where the occurrence begins.
pub fn gap(t: &[u8], size: u32, level: u32, block: BlockNumber) -> BlockPlace
    requires { FieldIn t.now size level block.0 gap_field }
    ensures { result.0 ≡ at.gap t.now level block.0 }
{
    BlockPlace(field(t, size, level, block, GAP))
}

// How often counted byte number c occurs from the start of the parent to the start of the block.
pub fn before(t: &[u8], size: u32, level: u32, block: BlockNumber, c: u32) -> u32
    requires { FieldIn t.now size level block.0 (before_field c) }
    ensures { result ≡ at.before t.now level block.0 c }
{
    field(t, size, level, block, BEFORE + COUNTED_WORDS * c)
}

// How often counted byte number c occurs in the block.
pub fn inside(t: &[u8], size: u32, level: u32, block: BlockNumber, c: u32) -> u32
    requires { FieldIn t.now size level block.0 (inside_field c) }
    ensures { result ≡ at.inside t.now level block.0 c }
{
    field(t, size, level, block, INSIDE + COUNTED_WORDS * c)
}

// How often counted byte number c occurs in the linked block before the gap.
pub fn skip(t: &[u8], size: u32, level: u32, block: BlockNumber, c: u32) -> u32
    requires { FieldIn t.now size level block.0 (skip_field c) }
    ensures { result ≡ at.skip t.now level block.0 c }
{
    field(t, size, level, block, SKIP + COUNTED_WORDS * c)
}

// The offset of the edges of a block in a layout 2 tree: they follow its words.
pub fn edges(t: &[u8], size: u32, counted: u32, level: u32, block: BlockNumber) -> usize
    requires { EdgesIn t.now size counted level }
    ensures { (result ≡ at.edges_at t.now level block.0) × (result ≤ 2 ^ 32 * max_record + 2 ^ 32 + field_bytes max_counted) }
{
    let table = word::read(t, header::OFFSETS_AT + header::PAIR * level as usize) as usize;
    table
        + header::table_bytes(block.0, size) as usize
        + (PLAIN_BYTES + COUNTED_BYTES * counted as usize)
}
