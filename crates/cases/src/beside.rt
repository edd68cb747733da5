// Questions with bytes in addition to the tree: a tree, the bytes in hexadecimal, and a number.
use crate::{ask, wrong};
use cases_script::Question;
use cases_tokens::hexadecimal::Fault;

// Room for the table.
const ROOM: usize = 512;

pub fn ask(script: &[u8], line: &[u8], question: Question, bytes: &mut [u8]) {
    if !ask::numbers(line, 3, 4) {
        wrong::fault(Fault::Number);
        return;
    }
    let made = cases_script::named(script, cases_tokens::token(line, 1), bytes);
    match made {
        Ok(n) => of_tree(question, &bytes[..n], line),
        Err(f) => wrong::fault(f),
    }
}

// The question, with the tree read.
fn of_tree(question: Question, tree: &[u8], line: &[u8]) {
    let mut beside = [0u8; 300];
    let made = cases_tokens::hex(cases_tokens::token(line, 2), &mut beside);
    match made {
        Ok(n) => put(question, tree, &beside[..n], cases_tokens::figure(line, 3)),
        Err(f) => wrong::fault(f),
    }
}

// The question, with the tree and the bytes read: the next match after a mark, the next row after it that starts with a prefix, or the places of a pattern.
fn put(question: Question, tree: &[u8], beside: &[u8], number: u32) {
    match question {
        Question::Match => cases_replies::next_match(tree, beside, number),
        Question::Prefix => cases_replies::next_with_prefix(tree, beside, number),
        _ => places(tree, beside, number as usize),
    }
}

// The words have 238 in every byte.
fn places(tree: &[u8], pattern: &[u8], size: usize) {
    if ROOM < size {
        wrong::fault(Fault::Room);
        return;
    }
    let mut table = [4008636142u32; ROOM];
    cases_replies::places(tree, pattern, &mut table[..size]);
}
