// From level to level: level 0, the next one, and the end of the tree.
ghost use Rattle.std.specs.Prelude.{◌≡◌, ◌+◌, ◌≤◌, ◌<◌, length};
ghost use Rattle.format.specs.Layout.{max_text, max_leaf, max_levels, max_counted};
ghost use Rattle.format.specs.Blocks.{tree_of};
ghost use Rattle.theory_built.specs.BlockSizes.{Taken, max_table};
ghost use Rattle.layout.specs.SettingsLevel.{Sized};
ghost use Rattle.build_records.specs.WritesOnlyTree.{WritesOnlyTree};
ghost use Rattle.build_records.specs.RecordPlaces.{record_place};
ghost use Rattle.build_records.specs.State.{record_settings_of};
ghost use Rattle.build_levels.specs.Trees.{level_first_of, next_of, LevelWritten, StepIs, TreeComplete};

use crate::{header_written, leaf};
use build_records::level_written::Level;
use build_records::{below, level_written};
use layout::place::{BlockNumber, TextPlace};
use layout::settings::Settings;
use layout::{header, settings};

// Where the records of level 0 begin.
const FIRST_TABLE: u32 = header::HEADER_LENGTH as u32;

// Level 0.
fn first_level(text: &[u8], s: Settings) -> Level
    requires { Sized s 0 × (1 ≤ s.leaf) × (length text.now ≤ max_text) }
    ensures { result ≡ level_first_of s (length text.now) }
{
    let size = s.block_length(0);
    Level {
        settings: s,
        number: 0,
        above: 1,
        size,
        below: size / s.arity,
        count: settings::pieces(text.len() as u32, size),
        table: FIRST_TABLE,
    }
}

// The level below another, given the number of its blocks.
fn next_level(counted: &[u8], level: Level, count: u32) -> Level
    requires counted_len_bound { (length counted.now ≤ max_counted) × (level.table ≤ max_table)
        × (level.count ≤ max_text) × (level.settings.leaf ≤ max_leaf) × (level.number < max_levels) × (0 < level.settings.arity) }
    requires counted_bound { record_place level.table level.count (record_settings_of level.settings counted.now) ≤ max_table }
    ensures { result ≡ next_of level count counted.now }
{
    let settings = level.settings;
    Level {
        settings,
        number: level.number + 1,
        above: level.size,
        size: level.below,
        below: level.below / settings.arity,
        count,
        table: level_written::place(counted, level, BlockNumber(level.count)) as u32,
    }
}

// Writes the first words of the header and the starts of level 0. Returns this level, none if the buffer has no room for its records.
pub fn begin(out: &mut [u8], text: &[u8], counted: &[u8], s: Settings) -> Option<Level>
    requires { Taken (record_settings_of s counted.now) text.now }
    ensures writes_only_tree { WritesOnlyTree (tree_of (record_settings_of s counted.now) text.now) out.old out.new }
    ensures step_is { StepIs (record_settings_of s counted.now) text.now out.new s 0 result }
{
    let first = first_level(text, s);
    if out.len() < level_written::place(counted, first, BlockNumber(first.count)) {
        return None;
    }
    header_written::put_head(out, text, counted, s);
    below::put_starts(
        out,
        header::HEADER_LENGTH,
        level_written::record_size(counted, s),
        TextPlace(0),
        first.size,
        first.count,
    );
    Some(first)
}

// After the records of a level above the last: writes its words in the header and the starts of the next level. Returns that level, none if the buffer
// has no room for its records.
pub fn go_down(
    out: &mut [u8],
    text: &[u8],
    counted: &[u8],
    level: Level,
    count: u32,
) -> Option<Level>
    requires level_written { LevelWritten (record_settings_of level.settings counted.now) text.now out.old level count }
    requires number_bound { level.number + 1 < level.settings.levels }
    ensures writes_only_tree { WritesOnlyTree (tree_of (record_settings_of level.settings counted.now) text.now) out.old
        out.new }
    ensures step_is { StepIs (record_settings_of level.settings counted.now)
        text.now out.new level.settings (level.number + 1) result }
{
    header_written::put_pair(out, level.number, level.count, level.table);
    let next = next_level(counted, level, count);
    if out.len() < level_written::place(counted, next, BlockNumber(next.count)) {
        return None;
    }
    below::put_children(out, text, counted, level, next);
    Some(next)
}

// After the records of the last level: writes the rest of the header and the leaf bytes. Returns the size of the tree, 0 if it does not fit.
pub fn finish(out: &mut [u8], text: &[u8], counted: &[u8], level: Level, count: u32) -> u32
    requires level_written { LevelWritten (record_settings_of level.settings counted.now) text.now out.old level count }
    requires number_value { level.number + 1 ≡ level.settings.levels }
    ensures writes_only_tree { WritesOnlyTree (tree_of (record_settings_of level.settings counted.now) text.now) out.old
        out.new }
    ensures tree_complete { TreeComplete (tree_of (record_settings_of level.settings counted.now) text.now) out.new result }
{
    header_written::put_pair(out, level.number, level.count, level.table);
    let at = level_written::place(counted, level, BlockNumber(level.count)) as u32;
    let end = at + count;
    if out.len() < end as usize {
        return 0;
    }
    header_written::put_end(out, level.settings.levels, at, count);
    leaf::put_leaves(out, text, counted, level, at);
    end
}
