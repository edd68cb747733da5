// Writes the records of a level above the last in order, from the results in the table.
ghost use Rattle.std.specs.Prelude.{◌≡◌, ◌+◌, ◌*◌, ◌≤◌, ◌<◌, length};
ghost use Rattle.format.specs.Layout.{max_text, pieces};
ghost use Rattle.build_marking.specs.MarkingRule.{Next, pair_of};
ghost use Rattle.build_records.specs.State.{record_settings_of, BlockNext, BlockIs};
ghost use Rattle.build_levels.specs.Trees.{LevelReady, LevelDone};
ghost use Rattle.build_by_scan.specs.ScanAnswers.{windows_at};
ghost use Rattle.build_by_scan.specs.ItemTable.{TableGivesMarking};

use crate::table;
use build_marking::pair::Pair;
use build_marking::{Marked, pair, target};
use build_records::level_written::Level;
use build_records::record_written::Block;
use build_records::{level_written, record_written};
use layout::place::{BlockNumber, Link};

// The number of blocks of the next level, and the number of windows looked up for this one.
#[derive(Clone, Copy)]
pub struct LevelPut {
    pub below: u32,
    pub windows: u32,
}

// Whether a block and the next one are a pair, and where its bytes first occur, by the table.
fn pair_in(
    words: &[u32],
    text: &[u8],
    counted: &[u8],
    out: &[u8],
    level: Level,
    i: BlockNumber,
) -> Pair
    requires { BlockNext (record_settings_of level.settings counted.now) text.now out.now level i.0
        × TableGivesMarking (record_settings_of level.settings counted.now) text.now level.number words.now }
    ensures { result ≡ pair_of (record_settings_of level.settings counted.now) text.now level.number i.0 }
{
    if i.0 + 1 == level.count {
        return Pair::Apart;
    }
    let start = level_written::start(counted, out, level, i);
    let next = level_written::start(counted, out, level, BlockNumber(i.0 + 1));
    if next.0 != start.0 + level.size {
        return Pair::Apart;
    }
    if words[3 * (2 * i.0 as usize + 1) + 2] != start.0 {
        return Pair::Again;
    }
    Pair::First
}

// The values of the record of a block, by the table.
fn block_in(
    words: &[u32],
    text: &[u8],
    counted: &[u8],
    out: &[u8],
    level: Level,
    b: Marked,
) -> Block
    requires { Next (record_settings_of level.settings counted.now) text.now out.now level b.number.0 b.kept b.link.0
        × TableGivesMarking (record_settings_of level.settings counted.now) text.now level.number words.now }
    ensures { BlockIs (record_settings_of level.settings counted.now) text.now level.number b.number.0 result }
{
    let i = b.number;
    if b.kept {
        let link = b.link;
        return target::kept_block(text, counted, out, level, i, link);
    }
    let place = scan_pass::place_of(words, text.len() as u32, 2 * i.0);
    target::pointing_block(text, counted, out, level, i, place)
}

// Writes the records of a level whose starts have been written. Returns the number of blocks of the next level.
fn fill_scanned(out: &mut [u8], words: &[u32], text: &[u8], counted: &[u8], level: Level) -> u32
    requires { LevelReady (record_settings_of level.settings counted.now) text.now out.old level
        × TableGivesMarking (record_settings_of level.settings counted.now) text.now level.number words.now }
    ensures { LevelDone (record_settings_of level.settings counted.now) text.now out.old out.new level result }
{
    let mut left = Pair::Apart;
    let mut link: u32 = 0;
    for i in 0..level.count {
        let right = pair_in(words, text, counted, out, level, BlockNumber(i));
        let kept = pair::keeps(left, right);
        let marked = Marked {
            number: BlockNumber(i),
            kept,
            link: Link(link),
        };
        let block = block_in(words, text, counted, out, level, marked);
        link += record_written::put_block(out, text, counted, level, BlockNumber(i), block);
        left = right;
    }
    link
}

// Scans for a level above the last and returns the number of windows looked up; 0 for a text without bytes, which has no block.
fn scan_level(
    words: &mut [u32],
    text: &[u8],
    counted: &[u8],
    out: &[u8],
    level: Level,
    seed: u32,
) -> u32
    requires { LevelReady (record_settings_of level.settings counted.now) text.now out.now level × (level.number + 1 < level.settings.levels)
        × (4 * pieces (length text.now) level.settings.leaf ≤ length words.old) }
    ensures table_gives_marking { TableGivesMarking (record_settings_of level.settings counted.now) text.now level.number words.new }
    ensures value { (result ≡ windows_at (record_settings_of level.settings counted.now) text.now level.number) × (result ≤ 4 * max_text) }
{
    if level.count == 0 {
        return 0;
    }
    let it = table::items_of(text, counted, level, seed);
    scan_pass::scan(words, text, out, it)
}

// Scans for a level above the last and writes its records.
pub fn put_level(
    out: &mut [u8],
    words: &mut [u32],
    text: &[u8],
    counted: &[u8],
    level: Level,
    seed: u32,
) -> LevelPut
    requires { LevelReady (record_settings_of level.settings counted.now) text.now out.old level × (level.number + 1 < level.settings.levels)
        × (4 * pieces (length text.now) level.settings.leaf ≤ length words.old) }
    ensures level_done { LevelDone (record_settings_of level.settings counted.now) text.now out.old out.new level
        result.below }
    ensures windows_value { (result.windows ≡ windows_at (record_settings_of level.settings counted.now) text.now level.number)
        × (result.windows ≤ 4 * max_text) }
{
    let windows = scan_level(words, text, counted, out, level, seed);
    LevelPut {
        below: fill_scanned(out, words, text, counted, level),
        windows,
    }
}
