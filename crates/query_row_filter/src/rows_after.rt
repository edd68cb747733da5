// Where the rows after a mark begin, in a tree that passes questions 5 to 7; the bytes that are scanned from there; and the largest row number that may
// be returned.
ghost use Rattle.std.specs.Prelude.{◌≡◌, true, ◌+◌, ◌≤◌, ◌<◌, ltb};
ghost use Rattle.format.specs.Answers.{is_counted, number_of_byte, total};
ghost use Rattle.layout.specs.HeaderFields.{HeaderOf};
ghost use Rattle.query_rows.specs.RowSpans.{settled_by};
ghost use Rattle.query_row_filter.specs.RowsAfter.{FilterStartIs, BeginIs, PartFrom, SearchFrom, answer_of, end_result, limited};

use crate::NextRow;
use layout::header::Header;
use layout::place::TextPlace;
use query_access::read_by_header;
use query_access::read_by_header::TreeRange;
use query_rows::row_bounds;
use refusals::Refusal;
use row_filter::{RowScan, RowScanner};

// The most bytes that are read at once: a selected row is often near.
const MOST: u32 = 1024;

// Where the rows after a mark begin, with the total of byte 10; or the answer of the call, if no row begins there or the place is not found. No `Result`:
// the answer is no error where no row begins.
#[derive(Clone, Copy)]
pub enum RowsStart {
    At(TextPlace, u64),
    Answered(Result<NextRow, Refusal>),
}

// Question 11. A mark at or above the number of rows stays. The guide is used if `used` is true.
pub fn begin(t: &[u8], h: Header, guide: &[u8], used: bool, mark: u32) -> RowsStart
    requires { HeaderOf t.now h }
    ensures { BeginIs t.now (settled_by t.now guide.now used) mark result }
{
    let number = query_counted::number_of(t, h.settings.counted, 10);
    if h.settings.counted <= number {
        return RowsStart::Answered(Err(Refusal::ByteNotCounted));
    }
    if h.text_length <= mark {
        return RowsStart::Answered(Ok(NextRow::Nothing(mark)));
    }
    let newlines = query_counted::total(t, h, number);
    if newlines < mark as u64 {
        return RowsStart::Answered(Ok(NextRow::Nothing(mark)));
    }
    let place = start(t, h, guide, used, number, mark);
    let Some(p) = place else {
        return RowsStart::Answered(Err(Refusal::PathBroken));
    };
    RowsStart::At(p, newlines)
}

// The bytes of the text from a place on that are scanned next, as a range of the tree's bytes.
fn next_part(t: &[u8], h: Header, at: u32) -> Result<TreeRange, Refusal>
    requires { (HeaderOf t.now h) × (at < h.text_length) }
    ensures { PartFrom t.now at result }
{
    read_by_header::range_at(t, h, TextPlace(at), MOST)
}

// Scans the text from the place where row q begins, by ranges of leaf bytes.
pub fn search<A: RowScanner>(
    t: &[u8],
    h: Header,
    automaton: A,
    place: TextPlace,
    q: u32,
) -> Result<NextRow, Refusal>
    requires { (HeaderOf t.now h) × (place.0 ≤ h.text_length) × (1 ≤ q) × (q ≤ h.text_length) }
    ensures { SearchFrom t.now (A.automaton automaton) place.0 q result }
{
    let mut so_far = automaton.start();
    let mut row = q;
    let mut at = place.0;
    // A `while`: the length of the next part is found in the loop, so there is no range to go over.
    while at < h.text_length {
        let part = next_part(t, h, at)?;
        let begin = part.from;
        let end = begin + part.length;
        match row_filter::scan(automaton, &t[begin..end], so_far, row) {
            RowScan::Found(number) => {
                return Ok(NextRow::Row(number));
            }
            RowScan::On(state, number) => {
                so_far = state;
                row = number;
            }
        }
        at += part.length as u32;
    }
    Ok(end_of_text(automaton.at_end(so_far), automaton.no_byte(so_far), row))
}

// The answer where the text ends in row q, which is selected or not, and empty or not: a row without a byte does not count.
fn end_of_text(selected: bool, empty: bool, q: u32) -> NextRow
    requires { 1 ≤ q }
    ensures { result ≡ answer_of (end_result selected empty q) }
{
    if selected {
        return NextRow::Row(q);
    }
    if empty {
        return NextRow::Nothing(q - 1);
    }
    NextRow::Nothing(q)
}

// Where the rows after a mark begin: the place after the byte 10 that ends the mark's row (select); for mark 0 the text's start. None if the walk to that
// place fails.
fn start(t: &[u8], h: Header, guide: &[u8], used: bool, number: u32, mark: u32) -> Option<TextPlace>
    requires { (HeaderOf t.now h) × (is_counted t.now 10 ≡ true) × (mark ≤ total t.now (number_of_byte t.now 10))
        × (number ≡ number_of_byte t.now 10) × (number < h.settings.counted) }
    ensures { FilterStartIs t.now (settled_by t.now guide.now used) mark result }
{
    if mark == 0 {
        return Some(TextPlace(0));
    }
    let found = row_bounds::find_newline(t, h, guide, used, number, mark);
    let Ok((end, _)) = found else {
        return None;
    };
    Some(TextPlace(end.0 + 1))
}

// Whether a row number is above total + 1. The sum does not overflow: it is only formed where q is above the total.
fn past(q: u32, newlines: u64) -> bool
    ensures { result ≡ ltb (newlines + 1) q }
{
    if q as u64 <= newlines {
        return false;
    }
    newlines + 1 < q as u64
}

// No accepted tree has a row number above total + 1.
pub fn limit(answer: Result<NextRow, Refusal>, newlines: u64) -> Result<NextRow, Refusal>
    ensures { result ≡ limited newlines answer }
{
    let found = answer?;
    match found {
        NextRow::Row(q) => {
            if past(q, newlines) {
                return Err(Refusal::PathBroken);
            }
            Ok(found)
        }
        NextRow::Nothing(m) => {
            if past(m, newlines) {
                return Err(Refusal::PathBroken);
            }
            Ok(found)
        }
    }
}
