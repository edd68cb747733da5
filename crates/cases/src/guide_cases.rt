// Questions on a guide: a tree, the words of a guide in decimal, separated by commas, and numbers.
ghost use Rattle.std.specs.Prelude.{◌≡◌, ℕ, ◌≤◌, length, Ok};

use crate::{ask, wrong};
use cases_tokens::decimal;
use cases_tokens::hexadecimal::Fault;
use layout::word;

// Room for a guide's bytes.
const ROOM: usize = 300;

// Runs a line whose first word is one of these. Returns whether it is.
pub fn line(script: &[u8], line: &[u8], bytes: &mut [u8]) -> bool {
    let word = cases_tokens::token(line, 0);
    if check::same(word, b"guide") {
        make(script, line, bytes);
        return true;
    }
    if check::same(word, b"guidecheck") {
        beside(script, line, 3, bytes);
        return true;
    }
    if check::same(word, b"guided") {
        beside(script, line, 5, bytes);
        return true;
    }
    false
}

// Make: a tree, and the number of words of the table.
fn make(script: &[u8], line: &[u8], bytes: &mut [u8]) {
    if !ask::numbers(line, 2, 3) {
        wrong::fault(Fault::Number);
        return;
    }
    let made = cases_script::named(script, cases_tokens::token(line, 1), bytes);
    match made {
        Ok(n) => make_of(&bytes[..n], cases_tokens::figure(line, 2) as usize),
        Err(f) => wrong::fault(f),
    }
}

// Make, with the tree read; the words have 238 in every byte.
fn make_of(tree: &[u8], words: usize) {
    if ROOM / 4 < words {
        wrong::fault(Fault::Room);
        return;
    }
    let mut table = [238u8; ROOM];
    let size = 4 * words;
    cases_replies::guide_replies::make(tree, &mut table[..size]);
}

// A question with a guide, on a line with this number of tokens.
fn beside(script: &[u8], line: &[u8], last: u32, bytes: &mut [u8]) {
    if !ask::numbers(line, 3, last) {
        wrong::fault(Fault::Number);
        return;
    }
    let made = cases_script::named(script, cases_tokens::token(line, 1), bytes);
    match made {
        Ok(n) => of_tree(&bytes[..n], line),
        Err(f) => wrong::fault(f),
    }
}

// The question, with the tree read.
fn of_tree(tree: &[u8], line: &[u8]) {
    let mut guide = [0u8; ROOM];
    let made = guide_of(cases_tokens::token(line, 2), &mut guide);
    match made {
        Ok(n) => put(tree, &guide[..n], line),
        Err(f) => wrong::fault(f),
    }
}

// The question, with the tree and the guide read: check the guide, or find a byte with it.
fn put(tree: &[u8], guide: &[u8], line: &[u8]) {
    if check::same(cases_tokens::token(line, 0), b"guidecheck") {
        cases_replies::guide_replies::check(tree, guide);
        return;
    }
    let byte = cases_tokens::figure(line, 3);
    if 255 < byte {
        wrong::fault(Fault::Number);
        return;
    }
    cases_replies::guide_replies::find(tree, guide, byte as u8, cases_tokens::figure(line, 4));
}

// The bytes of a guide's words; `-` is none.
fn guide_of(listed: &[u8], out: &mut [u8]) -> Result<usize, Fault>
    ensures { (n : ℕ) → result ≡ Ok n → n ≤ length out.old }
{
    if check::same(listed, b"-") {
        return Ok(0);
    }
    let mut n: usize = 0;
    let mut at: usize = 0;
    // A `while`: an entry starts where the one before it ends, and `past` finds that place in the body.
    while at < listed.len() {
        if out.len() - n < 4 {
            return Err(Fault::Room);
        }
        let number = decimal::read_number(cases_tokens::until(listed, at, 44));
        let Some(value) = number else {
            return Err(Fault::Number);
        };
        word::write(out, n, value);
        n += 4;
        at = cases_tokens::past(listed, at, 44);
    }
    Ok(n)
}
