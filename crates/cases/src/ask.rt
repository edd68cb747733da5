// Calls the library with the question of a line.
ghost use Rattle.std.specs.Prelude.{◌≤◌};

use crate::{beside, guide_cases, licence_cases, order_cases, output_cases, wrong};
use cases_replies::Sizes;
use cases_script::{InputKind, Question};
use cases_tokens::hexadecimal::Fault;

// Room for the table of a scan.
const TABLE: usize = 512;

// Runs a line; the script has the lines before it.
pub fn line(script: &[u8], line: &[u8], bytes: &mut [u8], lent: &mut [u8]) {
    if cases_script::is_comment(line) {
        return;
    }
    if cases_script::gives_bytes(line) {
        give(script, line, bytes);
        return;
    }
    let question = cases_script::question_of(line);
    match question {
        Question::Nothing => other(script, line, bytes, lent),
        Question::Build | Question::Scan => build(script, line, question, bytes, lent),
        Question::Places | Question::Match | Question::Prefix => beside::ask(
            script, line, question, bytes,
        ),
        _ => of_tree(script, line, question, bytes, lent),
    }
}

// Runs a line whose first word another file handles, or that no file knows.
fn other(script: &[u8], line: &[u8], bytes: &mut [u8], lent: &mut [u8]) {
    if output_cases::line(script, line, bytes, lent) {
        return;
    }
    if licence_cases::line(line) {
        return;
    }
    if guide_cases::line(script, line, bytes) {
        return;
    }
    if order_cases::line(script, line, bytes) {
        return;
    }
    wrong::say(b"no such word");
}

// The number of tokens of a line that names bytes.
fn input_length(kind: InputKind) -> u32 {
    match kind {
        InputKind::Text | InputKind::Tree => 3,
        _ => 4,
    }
}

// Tries a line that names bytes.
fn give(script: &[u8], line: &[u8], bytes: &mut [u8]) {
    if cases_tokens::ends(line, input_length(cases_script::input_kind(line))) {
        wrong::made(cases_script::make(script, line, bytes));
    } else {
        wrong::fault(Fault::Number);
    }
}

// Whether the tokens from `from` up to, not including, `to` are numbers and the last ones.
pub fn numbers(line: &[u8], from: u32, to: u32) -> bool {
    if cases_tokens::ends(line, to) {
        return cases_tokens::figures(line, from, to);
    }
    false
}

// The number of tokens of a question about a tree.
fn length(question: Question) -> u32 {
    match question {
        Question::Byte | Question::Run => 3,
        Question::Count | Question::Find | Question::Row => 4,
        Question::Span => 5,
        _ => 2,
    }
}

// The length of the buffer of a question about a tree: its last token.
fn lent_length(question: Question, line: &[u8]) -> usize {
    match question {
        Question::Span => cases_tokens::figure(line, 4) as usize,
        Question::Row => cases_tokens::figure(line, 3) as usize,
        _ => 0,
    }
}

// A question about a tree.
fn of_tree(script: &[u8], line: &[u8], question: Question, bytes: &mut [u8], lent: &mut [u8]) {
    if !numbers(line, 2, length(question)) {
        wrong::fault(Fault::Number);
        return;
    }
    let size = lent_length(question, line);
    if lent.len() < size {
        wrong::fault(Fault::Room);
        return;
    }
    let made = cases_script::named(script, cases_tokens::token(line, 1), bytes);
    match made {
        Ok(n) => put(question, &bytes[..n], line, &mut lent[..size]),
        Err(f) => wrong::fault(f),
    }
}

// Calls the library with a question about a tree; the buffer has 238 in every byte.
fn put(question: Question, tree: &[u8], line: &[u8], lent: &mut [u8]) {
    cases_script::fill(lent, 238);
    let a = cases_tokens::figure(line, 2);
    match question {
        Question::Check => cases_replies::check(tree),
        Question::List => cases_replies::list(tree),
        Question::Byte => cases_replies::byte(tree, a),
        Question::Run => cases_replies::run(tree, a),
        Question::Span => cases_replies::span(tree, a, cases_tokens::figure(line, 3), lent),
        Question::Row => cases_replies::row(tree, a, lent),
        _ => on_byte(question, tree, a, cases_tokens::figure(line, 3)),
    }
}

// A question on a counted byte.
fn on_byte(question: Question, tree: &[u8], byte: u32, number: u32) {
    if 255 < byte {
        wrong::fault(Fault::Number);
        return;
    }
    match question {
        Question::Count => cases_replies::count(tree, byte as u8, number),
        _ => cases_replies::find(tree, byte as u8, number),
    }
}

// The index of the last token of a line that builds, which is the length of the buffer.
fn last(question: Question) -> u32
    ensures { result ≤ 7 }
{
    match question {
        Question::Scan => 7,
        _ => 6,
    }
}

// Build: a text, three settings, the counted bytes, and the length of the buffer; with one scan a level, before that, how many words the
// table has.
fn build(script: &[u8], line: &[u8], question: Question, bytes: &mut [u8], lent: &mut [u8]) {
    if !cases_tokens::figures(line, 2, 5) {
        wrong::fault(Fault::Number);
        return;
    }
    let last = last(question);
    if !numbers(line, 6, last + 1) {
        wrong::fault(Fault::Number);
        return;
    }
    let size = cases_tokens::figure(line, last) as usize;
    if lent.len() < size {
        wrong::fault(Fault::Room);
        return;
    }
    let made = cases_script::named(script, cases_tokens::token(line, 1), bytes);
    match made {
        Ok(n) => build_of(&bytes[..n], line, question, &mut lent[..size]),
        Err(f) => wrong::fault(f),
    }
}

// Build, with the text read.
fn build_of(text: &[u8], line: &[u8], question: Question, lent: &mut [u8]) {
    let mut counted = [0u8; 256];
    let made = cases_tokens::hex(cases_tokens::token(line, 5), &mut counted);
    match made {
        Ok(n) => build_counting(text, line, question, &counted[..n], lent),
        Err(f) => wrong::fault(f),
    }
}

// Build, with the text and the counted bytes read.
fn build_counting(text: &[u8], line: &[u8], question: Question, counted: &[u8], lent: &mut [u8]) {
    cases_script::fill(lent, 238);
    let by = Sizes {
        leaf: cases_tokens::figure(line, 2),
        arity: cases_tokens::figure(line, 3),
        levels: cases_tokens::figure(line, 4),
    };
    match question {
        Question::Scan => scan(
            text,
            by,
            counted,
            cases_tokens::figure(line, 6) as usize,
            lent,
        ),
        _ => cases_replies::build(text, by, counted, lent),
    }
}

// With one scan for each level, in a table of `words` words with 238 in every byte.
fn scan(text: &[u8], by: Sizes, counted: &[u8], words: usize, lent: &mut [u8]) {
    if TABLE < words {
        wrong::fault(Fault::Room);
        return;
    }
    let mut work = [4008636142u32; TABLE];
    cases_replies::scan(text, by, counted, &mut work[..words], lent);
}
