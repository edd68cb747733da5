// The tree, level by level.
ghost use Rattle.std.specs.Prelude.{◌+◌, ◌<◌};
ghost use Rattle.format.specs.Blocks.{tree_of};
ghost use Rattle.theory_built.specs.BlockSizes.{Taken};
ghost use Rattle.build_records.specs.WritesOnlyTree.{WritesOnlyTree};
ghost use Rattle.build_records.specs.State.{record_settings_of};
ghost use Rattle.build_levels.specs.Trees.{LevelReady, TreeComplete};

use crate::level_fill;
use build_levels::level_step;
use build_records::level_written::Level;
use layout::settings::Settings;

// Writes the levels from `first` on. Returns the size of the tree, 0 if it does not fit.
fn put_levels(out: &mut [u8], text: &[u8], counted: &[u8], first: Level) -> u32
    requires { LevelReady (record_settings_of first.settings counted.now) text.now out.old first }
    ensures writes_only_tree { WritesOnlyTree (tree_of (record_settings_of first.settings counted.now) text.now) out.old
        out.new }
    ensures tree_complete { TreeComplete (tree_of (record_settings_of first.settings counted.now) text.now) out.new result }
{
    let mut level = first;
    for _ in first.number + 1..first.settings.levels {
        let count = level_fill::fill_level(out, text, counted, level);
        let step = level_step::go_down(out, text, counted, level, count);
        let Some(next) = step else {
            return 0;
        };
        level = next;
    }
    let count = level_fill::fill_level(out, text, counted, level);
    level_step::finish(out, text, counted, level, count)
}

// Writes the tree. Returns its size, 0 if it does not fit.
pub fn write_tree(out: &mut [u8], text: &[u8], counted: &[u8], s: Settings) -> u32
    requires { Taken (record_settings_of s counted.now) text.now }
    ensures writes_only_tree { WritesOnlyTree (tree_of (record_settings_of s counted.now) text.now) out.old out.new }
    ensures tree_complete { TreeComplete (tree_of (record_settings_of s counted.now) text.now) out.new result }
{
    let step = level_step::begin(out, text, counted, s);
    let Some(first) = step else {
        return 0;
    };
    put_levels(out, text, counted, first)
}
