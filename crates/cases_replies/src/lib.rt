// Prints the library's answers in the format of the cases: ` => `, the refusal or 0, the figures, and the contents of
// a buffer in hexadecimal.
#![tactic(auto)]

pub mod column_replies;
pub mod digest_replies;
pub mod guide_replies;
pub mod licence_replies;
pub mod order_replies;
mod say;
pub mod without_edges_replies;

use query::{NextRow, Refusal, TextPlace};

// The settings of a tree to be built: m, r and H.
#[derive(Clone, Copy)]
pub struct Sizes {
    pub leaf: u32,
    pub arity: u32,
    pub levels: u32,
}

// Build, into a buffer.
pub fn build(text: &[u8], by: Sizes, counted: &[u8], out: &mut [u8]) {
    let answer = tree::build(text, by.leaf, by.arity, by.levels, counted, out);
    say::figures(answer.map(|size| [u64::from(size)]));
    say::held(out);
}

// Build with one scan a level, with a table, which is unspecified afterwards and is not printed.
pub fn scan(text: &[u8], by: Sizes, counted: &[u8], work: &mut [u32], out: &mut [u8]) {
    let answer = tree::build_scanned(text, by.leaf, by.arity, by.levels, counted, work, out);
    say::figures(answer.map(|(size, windows)| [u64::from(size), u64::from(windows)]));
    say::held(out);
}

pub fn check(tree: &[u8]) {
    say::result(tree::check(tree));
}

// The output of the list program.
pub fn list(tree: &[u8]) {
    let mut out = [0u8; list_lines::MAX_LINES];
    let n = list_lines::print(tree, &mut out);
    say::lines(&out[..n]);
}

pub fn byte(tree: &[u8], at: u32) {
    let answer = query::byte(tree, TextPlace(at));
    say::figures(answer.map(|(value, entered)| [u64::from(value), u64::from(entered)]));
}

// Where the run is in the tree's bytes, and its length.
pub fn run(tree: &[u8], at: u32) {
    let answer = query::run_range(tree, TextPlace(at));
    say::figures(answer.map(|range| [range.from as u64, range.length as u64]));
}

pub fn count(tree: &[u8], byte: u8, i: u32) {
    let answer = query::count(tree, byte, i);
    say::figures(answer.map(|(times, entered)| [times, u64::from(entered)]));
}

pub fn find(tree: &[u8], byte: u8, j: u32) {
    let answer = query::find(tree, byte, j);
    say::figures(answer.map(|(place, entered)| [u64::from(place.0), u64::from(entered)]));
}

// The figure of a span is the number of blocks entered.
pub fn span(tree: &[u8], at: u32, len: u32, buffer: &mut [u8]) {
    let answer = query::span(tree, TextPlace(at), len, buffer);
    say::figures(answer.map(|(_, entered)| [u64::from(entered)]));
    say::held(buffer);
}

pub fn row(tree: &[u8], q: u32, buffer: &mut [u8]) {
    let answer = query::row(tree, q, buffer);
    say::figures(answer.map(|copied| [u64::from(copied)]));
    say::held(buffer);
}

// The number of places, and the words of the table.
pub fn places(tree: &[u8], pattern: &[u8], table: &mut [u32]) {
    let answer = query::places(tree, pattern, table);
    say::figures(answer.map(|n| [u64::from(n)]));
    say::table(table);
}

// The next match, and the mark as `advance_mark` leaves it.
pub fn next_match(tree: &[u8], ranges: &[u8], mark: u32) {
    let moved = query_key_match::advance(tree, ranges, mark);
    next_row(moved.answer, moved.row);
}

// The next row with a prefix, and the mark after it.
pub fn next_with_prefix(tree: &[u8], prefix: &[u8], mark: u32) {
    let answer = query::next_with_prefix(tree, prefix, mark);
    next_row(answer, query_key_match::after(answer, mark));
}

// The next row, 0 for none, and the mark afterwards.
fn next_row(answer: Result<NextRow, Refusal>, mark: u32) {
    say::figures(answer.map(|next| [row_number(next)]));
    say::figure(u64::from(mark));
}

// The number of a row, 0 for none.
fn row_number(next: NextRow) -> u64 {
    match next {
        NextRow::Row(q) => u64::from(q),
        NextRow::Nothing(_) => 0,
    }
}
