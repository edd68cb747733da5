// Checks the counts of one level; the levels below have been checked.
ghost use Rattle.std.specs.Prelude.{◌≡◌, ◌+◌, ◌-◌, ◌<◌};
ghost use Rattle.format.specs.Layout as at;
ghost use Rattle.theory_counts.specs.CountsLocal.{up_length, level_local};
ghost use Rattle.check_counts.specs.CountsAsked.{Linking, TrueBelow};
ghost use Rattle.check_counts.specs.PrefixTargets.{byte_local};

use crate::block_counts;
use layout::header::Header;
use layout::place::BlockNumber;
use layout::record;
use walk_steps::position::LevelAt;

// The counts of one counted byte in all blocks of a level.
fn byte_right(t: &[u8], h: Header, level: u32, b: u32, up: u32, c: u32) -> bool
    requires { (b ≡ at.full_length t.now level) × (up ≡ up_length t.now level) × Linking t.now h × (level < (at.settings t.now).levels)
        × (c < at.counted_count t.now) × TrueBelow t.now level }
    ensures { result ≡ byte_local t.now level c }
{
    let below = b / h.settings.arity;
    let n = record::level_count(t, level);
    for i in 0..n {
        if !block_counts::block_right(
            t,
            h.record_size,
            LevelAt { level, b },
            up,
            below,
            BlockNumber(i),
            c,
        ) {
            return false;
        }
    }
    true
}

// The block length of the level above; for level 0, the length of the text.
fn up_length(t: &[u8], h: Header, level: u32, b: u32) -> u32
    requires { (b ≡ at.full_length t.now level) × Linking t.now h × (level < (at.settings t.now).levels) }
    ensures { result ≡ up_length t.now level }
{
    if level == 0 {
        return h.text_length;
    }
    b * h.settings.arity
}

// One pass over the records of a level for each counted byte; b is its block length.
pub fn level_right(t: &[u8], h: Header, level: u32, b: u32) -> bool
    requires { (b ≡ at.full_length t.now level) × Linking t.now h × (level < (at.settings t.now).levels) × TrueBelow t.now level }
    ensures { result ≡ level_local t.now level }
{
    let up = up_length(t, h, level, b);
    for c in 0..h.settings.counted {
        if !byte_right(t, h, level, b, up, c) {
            return false;
        }
    }
    true
}
