// Writes the guide of an accepted tree. The search for the block of an entry starts at the block of the entry before, so the entries of a counted byte take
// one pass over level 0.
ghost use Rattle.std.specs.Prelude.{◌≡◌, ◌+◌, ◌*◌, ◌≤◌, ◌<◌, length};
ghost use Rattle.format.specs.Answers.{NeverZero, replied};
ghost use Rattle.format.specs.Layout as at;
ghost use Rattle.format.specs.TreeReading.{check_result};
ghost use Rattle.layout.specs.HeaderFields.{HeaderOf};
ghost use Rattle.query_guide.specs.Guides.{entries_of, entries_before, guide_words, make_guide_answer, make_guide_buffer, guide_words_reply};
ghost use Rattle.build_guide.specs.EntriesWritten.{Puts};

use layout::header::Header;
use layout::place::BlockNumber;
use layout::{header, word};
use query_guide::entry_words;
use refusals::Refusal;

// Writes the entries of a counted byte; `place` is the number of entries of the counted bytes before it.
fn put_entries(table: &mut [u8], t: &[u8], h: Header, number: u32, place: usize, count: u64)
    requires header_of { (HeaderOf t.now h) × (check_result t.now ≡ 0) × (number < at.counted_count t.now) × (place ≡ entries_before t.now number) }
    requires count_value { (count ≡ entries_of t.now number) × (4 * (place + count) ≤ length table.old) }
    ensures { Puts t.now table.old table.new place (place + count) }
{
    let mut block: u32 = 0;
    for e in 0..count {
        let along = entry_words::block_from(
            t,
            h,
            number,
            BlockNumber(block),
            entry_words::LISTED_EVERY * e + 1,
        );
        block = along.block.0;
        word::write(table, 4 * (place + e as usize), block);
    }
}

// Writes the entries of all counted bytes.
fn put_all(table: &mut [u8], t: &[u8], h: Header)
    requires { (HeaderOf t.now h) × (check_result t.now ≡ 0) × (4 * guide_words t.now ≤ length table.old) }
    ensures { table.new ≡ make_guide_buffer t.now table.old }
{
    let mut place: usize = 0;
    for c in 0..h.settings.counted {
        let count = entry_words::entries_of(t, h, c);
        put_entries(table, t, h, c, place, count);
        place += count as usize;
    }
}

// Question 25, for an accepted tree, given its header.
fn put_by(t: &[u8], h: Header, table: &mut [u8]) -> Result<u64, Refusal>
    requires { (HeaderOf t.now h) × (check_result t.now ≡ 0) }
    ensures result_value { (replied (guide_words_reply result) ≡ make_guide_answer t.now table.old) × (NeverZero (guide_words_reply result)) }
    ensures table_after { table.new ≡ make_guide_buffer t.now table.old }
{
    let all = entry_words::entries_before(t, h, h.settings.counted);
    if (table.len() as u64) < 4 * all {
        return Err(Refusal::GuideTableTooShort);
    }
    put_all(table, t, h);
    Ok(all)
}

// Writes the guide of an accepted tree.
pub fn put_guide(t: &[u8], table: &mut [u8]) -> Result<u64, Refusal>
    requires { check_result t.now ≡ 0 }
    ensures result_value { (replied (guide_words_reply result) ≡ make_guide_answer t.now table.old) × (NeverZero (guide_words_reply result)) }
    ensures table_after { table.new ≡ make_guide_buffer t.now table.old }
{
    let h = header::read_header(t)?;
    put_by(t, h, table)
}
