// The calls exported to C. Each returns 0 or the refusal. Figures are written behind references, 0 if refused. Any bytes may be given as a tree.
#![tactic(auto)]

pub mod column_exports;
pub mod compare_exports;
pub mod digest_exports;
pub mod figure_exports;
mod figures;
pub mod guide_exports;
pub mod licence_exports;
pub mod without_edges_exports;

ghost use Rattle.std.specs.Prelude.{◌≡◌, length};
ghost use Rattle.format.specs.Answers.{build_refusal, build_size, build_buffer, byte_answer, run_answer};
ghost use Rattle.format.specs.Answers.{span_answer, span_buffer, count_answer, FindBy, RowBy, answer_with};
ghost use Rattle.format.specs.TreeReading.{check_result};
ghost use Rattle.format.specs.Layout.{given};
ghost use Rattle.build_size_bound.specs.SizeBound.{size_bound_answer};
ghost use Rattle.list_lines.specs.ListedLines.{list_answer, list_buffer};
ghost use Rattle.query_places.specs.Places.{places_answer, places_buffer, pattern_ok};
ghost use Rattle.build_by_scan.specs.ScanAnswers.{table_words, build_scanned_refusal, scan_size, scan_windows, build_scanned_buffer, TableLeft};
ghost use Rattle.row_filter.specs.SelectedRows.{starts_with};
ghost use Rattle.query_row_filter.specs.AllowedRows.{AllowedOutcome, query_refusal};
ghost use Rattle.query_key_match.specs.MatchAnswer.{MatchOutcome};

use crate::figures::{put_next_row, put_row, put_u32, put_u64};
use text::TextPlace;

// Builds the tree of a text.
pub fn bt_build(
    text: &[u8],
    leaf: u32,
    arity: u32,
    levels: u32,
    counted: &[u8],
    out: &mut [u8],
    size: &mut u32,
) -> u32
    ensures number { result ≡ build_refusal (given leaf arity levels counted.now) text.now out.old }
    ensures written { size.new ≡ build_size (given leaf arity levels counted.now) text.now out.old }
    ensures buffer { out.new ≡ build_buffer (given leaf arity levels counted.now) text.now out.old }
{
    let built = tree::build(text, leaf, arity, levels, counted, out);
    match built {
        Ok(n) => put_u32(size, n, 0),
        Err(refusal) => put_u32(size, 0, refusal.number()),
    }
}

// Builds the same tree by one scan of the text for each level above the last, with the caller's table of words.
pub fn bt_build_scanned(
    text: &[u8],
    leaf: u32,
    arity: u32,
    levels: u32,
    counted: &[u8],
    work: &mut [u32],
    out: &mut [u8],
    size: &mut u32,
    windows: &mut u32,
) -> u32
    ensures number { result
        ≡ build_scanned_refusal (given leaf arity levels counted.now) text.now out.old (length work.old) }
    ensures written { size.new
        ≡ scan_size (given leaf arity levels counted.now) text.now out.old (length work.old) }
    ensures looked { windows.new
        ≡ scan_windows (given leaf arity levels counted.now) text.now out.old (length work.old) }
    ensures buffer { out.new
        ≡ build_scanned_buffer (given leaf arity levels counted.now) text.now out.old (length work.old) }
    ensures table { TableLeft result work.old work.new }
{
    let scanned = tree::build_scanned(text, leaf, arity, levels, counted, work, out);
    match scanned {
        Ok((n, w)) => put_u32(size, n, put_u32(windows, w, 0)),
        Err(refusal) => put_u32(size, 0, put_u32(windows, 0, refusal.number())),
    }
}

// The number of words that this table must have for a text of n bytes.
pub fn bt_scan_words(n: u32, leaf: u32) -> u64
    ensures { result ≡ table_words n leaf }
{
    tree::scan_words(n, leaf)
}

// A size that is enough for the tree of any text of n bytes.
pub fn bt_size_bound(
    n: u32,
    leaf: u32,
    arity: u32,
    levels: u32,
    counted: u32,
    size: &mut u64,
) -> u32
    ensures { answer_with result size.new 0 ≡ size_bound_answer n leaf arity levels counted }
{
    let room = tree::size_bound(n, leaf, arity, levels, counted);
    match room {
        Ok(bytes) => put_u64(size, bytes, 0),
        Err(refusal) => put_u64(size, 0, refusal.number()),
    }
}

// Checks a tree: questions 5 to 9.
pub fn bt_check(tree: &[u8]) -> u32
    ensures { result ≡ check_result tree.now }
{
    refusals::result_refusal(tree::check(tree))
}

// The byte at a place, and the number of blocks entered.
pub fn bt_byte(tree: &[u8], place: u32, value: &mut u32, entered: &mut u32) -> u32
    ensures { answer_with result value.new entered.new ≡ byte_answer tree.now place }
{
    let answer = query_access::byte(tree, TextPlace(place));
    match answer {
        Ok((byte, blocks)) => put_u32(value, byte as u32, put_u32(entered, blocks, 0)),
        Err(refusal) => {
            let number = refusal.number();
            put_u32(value, 0, put_u32(entered, 0, number))
        }
    }
}

// Where the run of a place starts in the bytes of the tree, and its length.
pub fn bt_run_range(tree: &[u8], place: u32, offset: &mut u64, len: &mut u32) -> u32
    ensures value { result ≡ (byte_answer tree.now place).number }
    ensures offset_after { offset.new ≡ (run_answer tree.now place).0 }
    ensures len_after { len.new ≡ (run_answer tree.now place).1 }
{
    let range = query_access::run_range(tree, TextPlace(place));
    match range {
        Ok(part) => put_u64(
            offset,
            part.from as u64,
            put_u32(len, part.length as u32, 0),
        ),
        Err(refusal) => put_u64(offset, 0, put_u32(len, 0, refusal.number())),
    }
}

// Copies the bytes from a place on and returns the number of blocks entered: that of a short span of a layout 2 tree, else 0.
pub fn bt_span(tree: &[u8], place: u32, len: u32, buffer: &mut [u8], entered: &mut u32) -> u32
    ensures value { result ≡ (span_answer tree.now place len (length buffer.old)).number }
    ensures entered_after { entered.new ≡ (span_answer tree.now place len (length buffer.old)).entered }
    ensures buffer_after { buffer.new ≡ span_buffer tree.now place len buffer.old }
{
    let copied = query_access::span(tree, TextPlace(place), len, buffer);
    match copied {
        Ok((_, blocks)) => put_u32(entered, blocks, 0),
        Err(refusal) => put_u32(entered, 0, refusal.number()),
    }
}

// How often a counted byte occurs in the first i bytes, and the number of blocks entered.
pub fn bt_count(tree: &[u8], byte: u32, i: u32, times: &mut u64, entered: &mut u32) -> u32
    ensures { answer_with result times.new entered.new ≡ count_answer tree.now byte i }
{
    if 255 < byte {
        let number = query_rank::uncounted::uncounted(tree, i).number();
        return put_u64(times, 0, put_u32(entered, 0, number));
    }
    let counted = query_rank::count(tree, byte as u8, i);
    match counted {
        Ok((count, visits)) => put_u64(times, count, put_u32(entered, visits, 0)),
        Err(refusal) => put_u64(times, 0, put_u32(entered, 0, refusal.number())),
    }
}

// The place of the j-th occurrence of a counted byte, and the number of blocks on its path.
pub fn bt_find(tree: &[u8], byte: u32, j: u32, place: &mut u32, entered: &mut u32) -> u32
    ensures { FindBy tree.now (check_result tree.now) byte j (answer_with result place.new entered.new) }
{
    if 255 < byte {
        let number = query_rank::uncounted::uncounted(tree, 0).number();
        return put_u32(place, 0, put_u32(entered, 0, number));
    }
    let found = query_select::find(tree, byte as u8, j);
    match found {
        Ok((at, path)) => put_u32(place, at.0, put_u32(entered, path, 0)),
        Err(refusal) => put_u32(place, 0, put_u32(entered, 0, refusal.number())),
    }
}

// Copies row q and returns its length.
pub fn bt_row(tree: &[u8], q: u32, buffer: &mut [u8], len: &mut u32) -> u32
    ensures { RowBy tree.now (check_result tree.now) q buffer.old result len.new buffer.new }
{
    let copied = query_rows::row(tree, q, buffer);
    put_row(copied, len)
}

// Writes all places of a pattern and returns their number.
pub fn bt_places(tree: &[u8], pattern: &[u8], table: &mut [u32], number: &mut u32) -> u32
    ensures number_after { answer_with result number.new 0 ≡ places_answer tree.now pattern.now (length table.old) }
    ensures table_after { table.new ≡ places_buffer tree.now pattern.now table.old }
{
    let written = query_places::places(tree, pattern, table);
    match written {
        Ok(n) => put_u32(number, n, 0),
        Err(refusal) => put_u32(number, 0, refusal.number()),
    }
}

// Moves the mark to the next row that matches and returns that row, 0 for none. If refused, the mark is unchanged.
pub fn bt_next_match(tree: &[u8], ranges: &[u8], mark: &mut u32, row: &mut u32) -> u32
    ensures { MatchOutcome
        tree.now ranges.now mark.old (record { refusal = result; row = row.new; mark = mark.new }) }
{
    let answer = query_key_match::next_match(tree, ranges, *mark);
    put_next_row(answer, mark, row)
}

// Moves the mark to the next row that starts with the prefix and returns that row, 0 for none. If refused, the mark is unchanged.
pub fn bt_next_with_prefix(tree: &[u8], prefix: &[u8], mark: &mut u32, row: &mut u32) -> u32
    ensures { AllowedOutcome tree.now (check_result tree.now)
        (query_refusal tree.now 16 (pattern_ok prefix.now))
        (starts_with prefix.now) mark.old (record { refusal = result; row = row.new; mark = mark.new }) }
{
    let answer = query_prefix::next_with_prefix(tree, prefix, *mark);
    put_next_row(answer, mark, row)
}

// Writes a line for each level of a tree.
pub fn bt_list(tree: &[u8], out: &mut [u8], len: &mut u32) -> u32
    ensures len_after { answer_with result len.new 0 ≡ list_answer tree.now (length out.old) }
    ensures out_after { out.new ≡ list_buffer tree.now out.old }
{
    let listed = list_lines::list(tree, out);
    match listed {
        Ok(n) => put_u32(len, n, 0),
        Err(refusal) => put_u32(len, 0, refusal.number()),
    }
}
