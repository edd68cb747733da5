// The marking rule: pairs of blocks that are adjacent both in the level's list and in the text.
ghost use Rattle.std.specs.Prelude.{◌≡◌, ◌+◌, ◌-◌, ◌≤◌, min, length};
ghost use Rattle.build_records.specs.State.{record_settings_of, BlockNext};
ghost use Rattle.build_marking.specs.MarkingRule.{is_kept_by, pair_answer, pair_of};
ghost use Rattle.format.specs.Layout.{max_text};

use crate::occurrences;
use build_records::level_written;
use build_records::level_written::Level;
use layout::place::{BlockNumber, TextPlace};

// A block and the next one: no pair; a pair whose bytes occur first here; a pair whose bytes occur earlier.
#[derive(Clone, Copy)]
pub enum Pair {
    Apart,
    First,
    Again,
}

// A block is kept if it is in a pair that occurs first here, or in no pair.
pub fn keeps(before: Pair, after: Pair) -> bool
    ensures { result ≡ is_kept_by before after }
{
    match before {
        Pair::First => true,
        Pair::Apart => match after {
            Pair::Apart => true,
            Pair::First => true,
            Pair::Again => false,
        },
        Pair::Again => match after {
            Pair::Apart => false,
            Pair::First => true,
            Pair::Again => false,
        },
    }
}

// Whether the bytes of the pair that starts at a place occur earlier.
fn pair_at(text: &[u8], start: TextPlace, size: u32) -> Pair
    requires { (start.0 ≤ length text.now) × (length text.now ≤ max_text) × (size ≤ max_text) }
    ensures { result ≡ pair_answer text.now start.0 (min (size + size) (length text.now - start.0)) }
{
    let len = byte_slices::min(size + size, text.len() as u32 - start.0);
    if occurrences::occurs_earlier(text, start, len) {
        return Pair::Again;
    }
    Pair::First
}

// Whether a block and the next one are a pair, and where its bytes first occur. On the last level, where all blocks are kept, no pair is looked for.
pub fn pair_after(text: &[u8], counted: &[u8], out: &[u8], level: Level, i: BlockNumber) -> Pair
    requires { BlockNext (record_settings_of level.settings counted.now) text.now out.now level i.0 }
    ensures { result ≡ pair_of (record_settings_of level.settings counted.now) text.now level.number i.0 }
{
    if level.number + 1 == level.settings.levels {
        return Pair::Apart;
    }
    if i.0 + 1 == level.count {
        return Pair::Apart;
    }
    let start = level_written::start(counted, out, level, i);
    let next = level_written::start(counted, out, level, BlockNumber(i.0 + 1));
    if next.0 != start.0 + level.size {
        return Pair::Apart;
    }
    pair_at(text, start, level.size)
}
