// Writes the leaf bytes: those of the blocks of the last level, one block after the other.
ghost use Rattle.std.specs.Prelude.{◌≡◌, ◌+◌, ◌<◌, length};
ghost use Rattle.format.specs.Layout.{header_length};
ghost use Rattle.format.specs.Blocks.{tree_of};
ghost use Rattle.theory_built.specs.Structure.{width_of};
ghost use Rattle.build_records.specs.WritesOnlyTree.{WritesOnlyTree, AgreesOn};
ghost use Rattle.build_levels.specs.LeafBytesWritten.{LeafBytesUpTo};
ghost use Rattle.build_records.specs.State.{record_settings_of};

use build_records::level_written;
use build_records::level_written::Level;
use layout::place::BlockNumber;

// Writes the leaf bytes of a block and returns their number.
fn put_leaf(
    out: &mut [u8],
    text: &[u8],
    counted: &[u8],
    level: Level,
    to: u32,
    i: BlockNumber,
) -> u32
    requires { LeafBytesUpTo (record_settings_of level.settings counted.now) text.now out.old level to i.0 × (i.0 < level.count) }
    ensures value { result ≡ width_of (record_settings_of level.settings counted.now) text.now level.number i.0 }
    ensures writes_only_tree { WritesOnlyTree (tree_of (record_settings_of level.settings counted.now) text.now) out.old
        out.new }
    ensures agrees_on { AgreesOn (tree_of (record_settings_of level.settings counted.now) text.now) out.new to (to + result) }
{
    let own = level_written::substring_of(text, counted, out, level, i);
    byte_slices::copy(
        out,
        to as usize,
        text,
        own.start.0 as usize,
        own.length as usize,
    );
    own.length
}

// Writes all leaf bytes.
pub fn put_leaves(out: &mut [u8], text: &[u8], counted: &[u8], level: Level, at: u32)
    requires { LeafBytesUpTo (record_settings_of level.settings counted.now) text.now out.old level at 0 }
    ensures writes_only_tree { WritesOnlyTree (tree_of (record_settings_of level.settings counted.now) text.now) out.old
        out.new }
    ensures agrees_on { AgreesOn (tree_of (record_settings_of level.settings counted.now) text.now) out.new
        header_length (length (tree_of (record_settings_of level.settings counted.now) text.now)) }
{
    let mut to: u32 = at;
    for i in 0..level.count {
        to += put_leaf(out, text, counted, level, to, BlockNumber(i));
    }
}
