// Writes the header.
ghost use Rattle.std.specs.Prelude.{◌≡◌, ◌-◌, ◌≤◌, ◌<◌, length};
ghost use Rattle.format.specs.Layout.{set_word, max_levels, max_counted, counted_at, pairs_at, leaf_offset_at, leaf_count_at, header_length};
ghost use Rattle.format.specs.Blocks.{tree_of};
ghost use Rattle.theory_built.specs.BlockSizes.{Taken};
ghost use Rattle.build_records.specs.WritesOnlyTree.{WritesOnlyTree, AgreesOn};
ghost use Rattle.byte_slices.specs.ByteSlices.{bytes_written};
ghost use Rattle.build_levels.specs.Head.{places, pair_written, unused_written};
ghost use Rattle.build_records.specs.State.{record_settings_of};

use layout::settings::Settings;
use layout::{header, word};

// Writes the counted bytes, then zeros in the places that are left.
fn put_counted(out: &mut [u8], counted: &[u8])
    requires { (length counted.now ≤ max_counted) × (header_length ≤ length out.old) }
    ensures { out.new ≡ bytes_written out.old counted_at (places counted.now) 0 max_counted }
{
    let used = counted.len();
    byte_slices::copy(out, header::COUNTED_AT, counted, 0, used);
    byte_slices::clear_at(out, header::COUNTED_AT + used, Settings::MAX_COUNTED - used);
}

// Writes the header up to the words of the levels.
pub fn put_head(out: &mut [u8], text: &[u8], counted: &[u8], s: Settings)
    requires { Taken (record_settings_of s counted.now) text.now × (header_length ≤ length out.old) }
    ensures writes_only_tree { WritesOnlyTree (tree_of (record_settings_of s counted.now) text.now) out.old out.new }
    ensures agrees_on { AgreesOn (tree_of (record_settings_of s counted.now) text.now) out.new 0 pairs_at }
{
    word::put_three(
        out,
        header::LAYOUT_AT,
        Settings::EDGED,
        text.len() as u32,
        s.leaf,
    );
    word::put_three(
        out,
        header::ARITY_AT,
        s.arity,
        s.levels,
        counted.len() as u32,
    );
    put_counted(out, counted);
}

// Writes the block count and the offset of a level.
pub fn put_pair(out: &mut [u8], number: u32, count: u32, table: u32)
    requires { (header_length ≤ length out.old) × (number < max_levels) }
    ensures { out.new ≡ pair_written out.old number count table }
{
    word::write(
        out,
        header::COUNTS_AT + header::PAIR * number as usize,
        count,
    );
    word::write(
        out,
        header::OFFSETS_AT + header::PAIR * number as usize,
        table,
    );
}

// Writes zeros for the unused levels.
fn put_unused(out: &mut [u8], levels: u32)
    requires { (header_length ≤ length out.old) × (levels ≤ max_levels) }
    ensures { out.new ≡ unused_written out.old levels (max_levels - levels) }
{
    for number in levels..Settings::MAX_LEVELS {
        put_pair(out, number, 0, 0);
    }
}

// Writes the end of the header: zeros for the unused levels, then the offset and the number of the leaf bytes.
pub fn put_end(out: &mut [u8], levels: u32, offset: u32, count: u32)
    requires { (header_length ≤ length out.old) × (levels ≤ max_levels) }
    ensures { out.new
        ≡ set_word (set_word (unused_written out.old levels (max_levels - levels)) leaf_offset_at offset) leaf_count_at count }
{
    put_unused(out, levels);
    word::write(out, header::LEAF_OFFSET_AT, offset);
    word::write(out, header::LEAF_COUNT_AT, count);
}
