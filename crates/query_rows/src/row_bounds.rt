// The bounds of a row in a tree that passes questions 5 to 7, given its header.
ghost use Rattle.std.specs.Prelude.{true, cond, ◌&&◌, ◌≡◌, ◌-◌, ◌≤◌, ◌<◌, ltb, eqb};
ghost use Rattle.text.specs.Text.{row_of};
ghost use Rattle.text.specs.RowLaws.{between, trimmed};
ghost use Rattle.format.specs.Answers.{byte_answer, number_of_byte, total, find_refusal, last_row_refusal, is_unterminated_row, row_refusal, row_most};
ghost use Rattle.format.specs.Layout as at;
ghost use Rattle.format.specs.TreeReading.{text_of};
ghost use Rattle.layout.specs.HeaderFields.{HeaderOf};
ghost use Rattle.query_select.specs.Found.{FoundBy};
ghost use Rattle.query_rows.specs.RowSpans.{settled_by, EdgesOf};
ghost use Rattle.query_rows.specs.RowEnds.{StartIs};

use crate::next_newline;
use layout::header::Header;
use layout::place::TextPlace;
use query_access::read_by_header;
use query_access::read_by_header::LeafRun;
use query_counted::CountedByte;
use query_guided::guided_find;
use query_select::seek;
use refusals::Refusal;

// The start and the length of row q, and the range that was read first, by finds with the guide if `used` is true. Questions 11, 12 and 14.
pub fn row_bounds(
    t: &[u8],
    h: Header,
    guide: &[u8],
    used: bool,
    q: u32,
) -> Result<(TextPlace, u32, LeafRun), Refusal>
    requires { HeaderOf t.now h }
    ensures { EdgesOf t.now (settled_by t.now guide.now used)
        (row_refusal t.now q) (row_of (text_of t.now) q) (row_most t.now q) result }
{
    let number = query_counted::number_of(t, h.settings.counted, 10);
    if h.settings.counted <= number {
        return Err(Refusal::ByteNotCounted);
    }
    if q == 0 {
        return Err(Refusal::NoSuchOccurrence);
    }
    let all = query_counted::total(t, h, number);
    if q as u64 <= all {
        return terminated_row(t, h, guide, used, number, q);
    }
    if h.text_length == 0 {
        return Err(Refusal::NoSuchOccurrence);
    }
    if (q - 1) as u64 == all {
        return last_row(t, h, guide, used, number, q);
    }
    Err(Refusal::NoSuchOccurrence)
}

// The bounds of the row without a byte 10 at its end, which exists if the last byte of the text is another one: from the place after the last byte 10, or
// from place 0, to the end of the text.
fn last_row(
    t: &[u8],
    h: Header,
    guide: &[u8],
    used: bool,
    number: u32,
    q: u32,
) -> Result<(TextPlace, u32, LeafRun), Refusal>
    requires { (HeaderOf t.now h) × (is_unterminated_row t.now q ≡ true) × (number ≡ number_of_byte t.now 10) × (number < h.settings.counted) }
    ensures { EdgesOf t.now (settled_by t.now guide.now used) (last_row_refusal
        (byte_answer t.now (at.text_length t.now - 1))) (row_of (text_of t.now) q) (row_most t.now q) result }
{
    let answer = read_by_header::byte_at(t, h, TextPlace(h.text_length - 1));
    let Ok((value, _)) = answer else {
        return Err(answer.unwrap_err());
    };
    if value == 10 {
        return Err(Refusal::NoSuchOccurrence);
    }
    if q == 1 {
        return Ok((TextPlace(0), h.text_length, read_by_header::no_run()));
    }
    let found = find_newline(t, h, guide, used, number, q - 1);
    let Ok((before, _)) = found else {
        return Err(found.unwrap_err());
    };
    Ok((
        TextPlace(before.0 + 1),
        h.text_length - (before.0 + 1),
        read_by_header::no_run(),
    ))
}

// The bounds of a row that ends in a newline: one find gives its start, and the newline is found by reading on.
fn terminated_row(
    t: &[u8],
    h: Header,
    guide: &[u8],
    used: bool,
    number: u32,
    q: u32,
) -> Result<(TextPlace, u32, LeafRun), Refusal>
    requires { (HeaderOf t.now h) × (number ≡ number_of_byte t.now 10) × (number < h.settings.counted) × (1 ≤ q) × (q ≤ total t.now number) }
    ensures { EdgesOf t.now (settled_by t.now guide.now used)
        (find_refusal t.now 10 q) (trimmed (between (text_of t.now) q)) (at.text_length t.now - 1) result }
{
    let start = row_start(t, h, guide, used, number, q)?;
    let end = next_newline::next_newline(&t, h, start);
    let Some((place, before, run)) = end else {
        return Err(Refusal::PathBroken);
    };
    Ok((start, strip_cr(place.0 - start.0, before), run))
}

// The start of row q, if it ends in a newline. Questions 11, 12 and 14.
fn row_start(
    t: &[u8],
    h: Header,
    guide: &[u8],
    used: bool,
    number: u32,
    q: u32,
) -> Result<TextPlace, Refusal>
    requires { (HeaderOf t.now h) × (number ≡ number_of_byte t.now 10) × (number < h.settings.counted) × (1 ≤ q) × (q ≤ total t.now number) }
    ensures { StartIs t.now (settled_by t.now guide.now used) q result }
{
    if q == 1 {
        return Ok(TextPlace(0));
    }
    let (before, _) = find_newline(t, h, guide, used, number, q - 1)?;
    Ok(TextPlace(before.0 + 1))
}

// The length of a row without a carriage return directly before the newline.
fn strip_cr(len: u32, before: u8) -> u32
    ensures { result ≡ cond (ltb 0 len && eqb 13 before) (len - 1) len }
{
    if len == 0 {
        return 0;
    }
    if before == 13 {
        return len - 1;
    }
    len
}

// The place of the j-th byte 10, with the guide if `used` is true. The guide is passed on as a part of itself: a copy of the slice would be two stores of
// 8 bytes that are read as one of 16, for which the processor waits.
pub fn find_newline(
    t: &[u8],
    h: Header,
    guide: &[u8],
    used: bool,
    number: u32,
    j: u32,
) -> Result<(TextPlace, u32), Refusal>
    requires { (HeaderOf t.now h) × (number ≡ number_of_byte t.now 10) × (number < h.settings.counted) × (1 ≤ j) × (j ≤ total t.now number) }
    ensures { FoundBy t.now (settled_by t.now guide.now used) 10 j result }
{
    let wanted = CountedByte { byte: 10, number };
    if used {
        let entries = &guide[0..];
        return guided_find::without_steps(guided_find::guided(&t, h, entries, wanted, j));
    }
    seek::seek(t, h, wanted, j)
}
