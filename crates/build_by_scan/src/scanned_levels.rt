// The tree, level by level.
ghost use Rattle.std.specs.Prelude.{◌≡◌, ◌+◌, ◌*◌, ◌≤◌, ◌<◌, length};
ghost use Rattle.format.specs.Blocks.{tree_of};
ghost use Rattle.format.specs.Layout.{pieces};
ghost use Rattle.theory_built.specs.BlockSizes.{Taken};
ghost use Rattle.build_records.specs.WritesOnlyTree.{WritesOnlyTree};
ghost use Rattle.build_records.specs.State.{record_settings_of};
ghost use Rattle.build_levels.specs.Trees.{LevelReady, TreeComplete};
ghost use Rattle.build_by_scan.specs.ScanAnswers.{windows_of};

use crate::{scanned_fill, table};
use build_levels::level_step;
use build_records::level_written::Level;
use layout::settings::Settings;

// The size of the tree, 0 if it does not fit, and the number of windows looked up.
#[derive(Clone, Copy)]
pub struct LevelsPut {
    pub size: u32,
    pub windows: u32,
}

// Writes the levels from `first` on.
fn put_levels(
    out: &mut [u8],
    words: &mut [u32],
    text: &[u8],
    counted: &[u8],
    first: Level,
    seed: u32,
) -> LevelsPut
    requires { LevelReady (record_settings_of first.settings counted.now) text.now out.old first × (first.number ≡ 0)
        × (4 * pieces (length text.now) first.settings.leaf ≤ length words.old) }
    ensures writes_only_tree { WritesOnlyTree (tree_of (record_settings_of first.settings counted.now) text.now) out.old
        out.new }
    ensures tree_complete { TreeComplete (tree_of (record_settings_of first.settings counted.now) text.now) out.new result.size }
    ensures windows_value { (result.size ≡ 0 → ⊥) → result.windows ≡ windows_of (record_settings_of first.settings counted.now) text.now }
{
    let mut level = first;
    let mut windows: u32 = 0;
    for _ in 1..first.settings.levels {
        let put = scanned_fill::put_level(out, words, text, counted, level, seed);
        windows += put.windows;
        let step = level_step::go_down(out, text, counted, level, put.below);
        let Some(next) = step else {
            return LevelsPut {
                size: 0,
                windows: 0,
            };
        };
        level = next;
    }
    let count = build_by_search::level_fill::fill_level(out, text, counted, level);
    LevelsPut {
        size: level_step::finish(out, text, counted, level, count),
        windows,
    }
}

// Writes the tree.
pub fn write_tree(
    out: &mut [u8],
    words: &mut [u32],
    text: &[u8],
    counted: &[u8],
    s: Settings,
) -> LevelsPut
    requires { Taken (record_settings_of s counted.now) text.now × (4 * pieces (length text.now) s.leaf ≤ length words.old) }
    ensures writes_only_tree { WritesOnlyTree (tree_of (record_settings_of s counted.now) text.now) out.old out.new }
    ensures tree_complete { TreeComplete (tree_of (record_settings_of s counted.now) text.now) out.new result.size }
    ensures windows_value { (result.size ≡ 0 → ⊥) → result.windows ≡ windows_of (record_settings_of s counted.now) text.now }
{
    let seed = table::seed_of(words);
    let step = level_step::begin(out, text, counted, s);
    let Some(first) = step else {
        return LevelsPut {
            size: 0,
            windows: 0,
        };
    };
    put_levels(out, words, text, counted, first, seed)
}
