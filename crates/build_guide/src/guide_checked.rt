// Compares a guide with that of an accepted tree: each entry with the block that make_guide would write, in the same pass.
ghost use Rattle.std.specs.Prelude.{◌≡◌, ◌+◌, ◌*◌, ◌≤◌, ◌<◌, length};
ghost use Rattle.text.specs.Text.{same_list};
ghost use Rattle.format.specs.Layout as at;
ghost use Rattle.format.specs.TreeReading.{check_result};
ghost use Rattle.layout.specs.HeaderFields.{HeaderOf};
ghost use Rattle.query_guide.specs.Guides.{entries_of, entries_before, guide_bytes};
ghost use Rattle.build_guide.specs.EntriesWritten.{GuideCompared};

use layout::header::Header;
use layout::place::BlockNumber;
use layout::{header, word};
use query_guide::entry_words;

// Whether the guide has the entries of a counted byte; `place` is the number of entries of the counted bytes before it.
fn entries_right(guide: &[u8], t: &[u8], h: Header, number: u32, place: usize, count: u64) -> bool
    requires header_of { (HeaderOf t.now h) × (check_result t.now ≡ 0) × (number < at.counted_count t.now) × (place ≡ entries_before t.now number) }
    requires count_value { (count ≡ entries_of t.now number) × (4 * (place + count) ≤ length guide.now) }
    ensures { GuideCompared t.now guide.now place (place + count) result }
{
    let mut block: u32 = 0;
    for e in 0..count {
        let along = entry_words::block_from(
            t,
            h,
            number,
            BlockNumber(block),
            entry_words::LISTED_EVERY * e + 1,
        );
        block = along.block.0;
        if word::read(guide, 4 * (place + e as usize)) != block {
            return false;
        }
    }
    true
}

// Whether a guide is that of an accepted tree, by its header.
fn right_by(t: &[u8], h: Header, guide: &[u8]) -> bool
    requires { (HeaderOf t.now h) × (check_result t.now ≡ 0) }
    ensures { result ≡ same_list guide.now (guide_bytes t.now) }
{
    let all = entry_words::entries_before(t, h, h.settings.counted);
    if guide.len() as u64 != 4 * all {
        return false;
    }
    let mut place: usize = 0;
    for c in 0..h.settings.counted {
        let count = entry_words::entries_of(t, h, c);
        if !entries_right(guide, t, h, c, place, count) {
            return false;
        }
        place += count as usize;
    }
    true
}

// Whether a guide is that of an accepted tree.
pub fn guide_right(t: &[u8], guide: &[u8]) -> bool
    requires { check_result t.now ≡ 0 }
    ensures { result ≡ same_list guide.now (guide_bytes t.now) }
{
    let Ok(h) = header::read_header(t) else {
        return false;
    };
    right_by(t, h, guide)
}
