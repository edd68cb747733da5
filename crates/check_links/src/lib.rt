// Question 8: whether the starts, kinds, links, gaps, block counts and the leaf count of a tree are right.
#![tactic(auto)]

mod block_links;
mod level_read;

ghost use Rattle.std.specs.Prelude.{◌≡◌, ◌<◌};
ghost use Rattle.text.specs.Text.{all_below};
ghost use Rattle.format.specs.TreeReading.{links_ok};
ghost use Rattle.layout.specs.HeaderFields.{HeaderOf};
ghost use Rattle.check_links.specs.LevelAsked.{LevelOf, start_as_cut, level_right};

use crate::level_read::Level;
use layout::header::Header;
use layout::place::BlockNumber;
use layout::record;

// Question 8, for a tree with the header h, which passes questions 5 to 7.
pub fn links_right(t: &[u8], h: Header) -> bool
    requires { HeaderOf t.now h }
    ensures { result ≡ links_ok t.now }
{
    let mut full = h.top_length;
    if !starts_right(t, level_read::level_of(t, h, 0, full)) {
        return false;
    }
    for l in 0..h.settings.levels {
        if !level_right(t, level_read::level_of(t, h, l, full)) {
            return false;
        }
        full /= h.settings.arity;
    }
    true
}

// The blocks of level 0 start where they must.
fn starts_right(t: &[u8], v: Level) -> bool
    requires { LevelOf t.now v × (v.number ≡ 0) }
    ensures { result ≡ all_below v.count (start_as_cut t.now) }
{
    for i in 0..v.count {
        let start = record::start(t, v.size, 0, BlockNumber(i));
        if start.0 as u64 != i as u64 * v.full as u64 {
            return false;
        }
    }
    true
}

// The blocks of a level are linked correctly, and the block count of the next level is right. `passed` is the number of children of the blocks checked so
// far: it is the link of the next kept block and never exceeds that count.
fn level_right(t: &[u8], v: Level) -> bool
    requires { LevelOf t.now v }
    ensures { result ≡ level_right t.now v.number }
{
    let mut passed: u32 = 0;
    for i in 0..v.count {
        let width = block_links::width(t, v, BlockNumber(i));
        if v.room - passed < width {
            return false;
        }
        if !block_links::block_right(t, v, BlockNumber(i), passed, width) {
            return false;
        }
        passed += width;
    }
    passed == v.room
}
