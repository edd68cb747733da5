// Writes the starts of the blocks of a level, from the kept blocks of the level above.
ghost use Rattle.std.specs.Prelude.{◌≡◌, suc, ◌+◌, ◌<◌};
ghost use Rattle.text.specs.Text.{sum_below};
ghost use Rattle.format.specs.Blocks.{tree_of};
ghost use Rattle.theory_built.specs.Structure.{width_of};
ghost use Rattle.build_records.specs.WritesOnlyTree.{WritesOnlyTree};
ghost use Rattle.build_records.specs.WrittenStarts.{starts_written, StartsAsk};
ghost use Rattle.build_records.specs.State.{record_settings_of, Below, Started, RecordsUpTo};

use crate::level_written;
use crate::level_written::Level;
use layout::place::{BlockNumber, TextPlace};
use layout::{record, settings, word};

// Writes the starts of n blocks of `size` bytes, one in each record from a place on.
pub fn put_starts(out: &mut [u8], at: usize, step: usize, start: TextPlace, size: u32, n: u32)
    requires { StartsAsk out.old at step start.0 size n }
    ensures { out.new ≡ starts_written out.old at step start.0 size n }
{
    for j in 0..n {
        word::write(out, at + j as usize * step, start.0 + j * size);
    }
}

// Writes the starts of the children of a block.
fn put_children_of(
    out: &mut [u8],
    text: &[u8],
    counted: &[u8],
    level: Level,
    next: Level,
    i: BlockNumber,
)
    requires { Below (record_settings_of level.settings counted.now) text.now out.old level next i.0 × (i.0 < level.count) }
    ensures writes_only_tree { WritesOnlyTree (tree_of (record_settings_of level.settings counted.now) text.now) out.old
        out.new }
    ensures started { Started (record_settings_of level.settings counted.now) text.now out.new (suc level.number) 0
        (sum_below (i.0 + 1) (width_of (record_settings_of level.settings counted.now) text.now level.number)) }
{
    let at = level_written::place(counted, level, i);
    if word::read(out, at + record::KIND_AT) != 0 {
        return;
    }
    let first = BlockNumber(word::read(out, at + record::LINK_AT));
    let own = level_written::substring_of(text, counted, out, level, i);
    let children = settings::pieces(own.length, next.size);
    put_starts(
        out,
        level_written::place(counted, next, first),
        level_written::record_size(counted, level.settings),
        own.start,
        next.size,
        children,
    );
}

// Writes the starts of all children of the blocks of a level.
pub fn put_children(out: &mut [u8], text: &[u8], counted: &[u8], level: Level, next: Level)
    requires { Below (record_settings_of level.settings counted.now) text.now out.old level next 0 }
    ensures writes_only_tree { WritesOnlyTree (tree_of (record_settings_of level.settings counted.now) text.now) out.old
        out.new }
    ensures records_up_to { RecordsUpTo (record_settings_of level.settings counted.now) text.now out.new (suc level.number) 0 }
{
    for i in 0..level.count {
        put_children_of(out, text, counted, level, next, BlockNumber(i));
    }
}
