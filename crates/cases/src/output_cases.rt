// Columns before rows: `columns` and `rows` take a text, a width and the length of the output; `column` takes a tree, a width, a row's number and the
// length of the buffer.
ghost use Rattle.std.specs.Prelude.{◌≤◌};

use crate::{ask, wrong};
use cases_tokens::hexadecimal::Fault;

// Answers a line that starts with one of these words. Returns whether it does.
pub fn line(script: &[u8], line: &[u8], bytes: &mut [u8], lent: &mut [u8]) -> bool {
    let last = last(cases_tokens::token(line, 0));
    if last == 0 {
        return false;
    }
    ask(script, line, last, bytes, lent);
    true
}

// The index of the last token of a line, which is the length of the buffer; 0 for another word.
fn last(word: &[u8]) -> u32
    ensures { result ≤ 4 }
{
    if check::same(word, b"column") {
        return 4;
    }
    if check::same(word, b"columns") || check::same(word, b"rows") {
        return 3;
    }
    if check::same(word, b"digest") || check::same(word, b"digest_text") {
        return 2;
    }
    if check::same(word, b"without_edges") {
        return 2;
    }
    0
}

// Finds the text or tree, and the buffer.
fn ask(script: &[u8], line: &[u8], last: u32, bytes: &mut [u8], lent: &mut [u8])
    requires { last ≤ 4 }
{
    if !ask::numbers(line, 2, last + 1) {
        wrong::fault(Fault::Number);
        return;
    }
    let size = cases_tokens::figure(line, last) as usize;
    if lent.len() < size {
        wrong::fault(Fault::Room);
        return;
    }
    let made = cases_script::named(script, cases_tokens::token(line, 1), bytes);
    match made {
        Ok(n) => put(&bytes[..n], line, &mut lent[..size]),
        Err(f) => wrong::fault(f),
    }
}

// The question, with the text or tree read; the buffer has 238 in every byte.
fn put(held: &[u8], line: &[u8], lent: &mut [u8]) {
    cases_script::fill(lent, 238);
    let word = cases_tokens::token(line, 0);
    if check::same(word, b"digest") {
        cases_replies::digest_replies::digest(held, lent);
        return;
    }
    if check::same(word, b"digest_text") {
        cases_replies::digest_replies::digest_text(held, lent);
        return;
    }
    if check::same(word, b"without_edges") {
        cases_replies::without_edges_replies::without_edges(held, lent);
        return;
    }
    put_columns(held, line, lent);
}

// The questions about columns.
fn put_columns(held: &[u8], line: &[u8], lent: &mut [u8]) {
    let word = cases_tokens::token(line, 0);
    let width = cases_tokens::figure(line, 2);
    if check::same(word, b"columns") {
        cases_replies::column_replies::to_columns(held, width, lent);
        return;
    }
    if check::same(word, b"rows") {
        cases_replies::column_replies::from_columns(held, width, lent);
        return;
    }
    cases_replies::column_replies::row(held, width, cases_tokens::figure(line, 3), lent);
}
