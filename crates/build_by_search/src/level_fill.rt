// The records of one level, written in order.
ghost use Rattle.build_records.specs.State.{record_settings_of};
ghost use Rattle.build_levels.specs.Trees.{LevelReady, LevelDone};

use build_marking::pair::Pair;
use build_marking::{Marked, pair};
use build_records::level_written::Level;
use build_records::record_written;
use layout::place::{BlockNumber, Link};

// Writes the records of a level whose starts have been written. Returns the number of blocks of the next level, or of leaf bytes.
pub fn fill_level(out: &mut [u8], text: &[u8], counted: &[u8], level: Level) -> u32
    requires { LevelReady (record_settings_of level.settings counted.now) text.now out.old level }
    ensures { LevelDone (record_settings_of level.settings counted.now) text.now out.old out.new level result }
{
    let mut left = Pair::Apart;
    let mut link: u32 = 0;
    for i in 0..level.count {
        let right = pair::pair_after(text, counted, out, level, BlockNumber(i));
        let kept = pair::keeps(left, right);
        let marked = Marked {
            number: BlockNumber(i),
            kept,
            link: Link(link),
        };
        let block = build_marking::block_at(text, counted, out, level, marked);
        link += record_written::put_block(out, text, counted, level, BlockNumber(i), block);
        left = right;
    }
    link
}
