// Numbers in decimal, at most 2^32 - 1.
ghost use Rattle.std.specs.Prelude.{◌≡◌};
ghost use Rattle.cases_tokens.specs.Parts.{token_of};
ghost use Rattle.cases_tokens.specs.Decimals.{more_of, number_of, value_of, is_number, figures_right};

use crate::parts::token;

// The number with one digit more, or none.
fn more(value: u32, digit: u8) -> Option<u32>
    ensures { result ≡ more_of value digit }
{
    if digit < 48 {
        return None;
    }
    if 57 < digit {
        return None;
    }
    let next = value as u64 * 10 + (digit - 48) as u64;
    if 4294967295 < next {
        return None;
    }
    Some(next as u32)
}

// The number that a token represents: one digit or more, nothing else.
pub fn read_number(word: &[u8]) -> Option<u32>
    ensures { result ≡ number_of word.now }
{
    if word.len() == 0 {
        return None;
    }
    let mut value: u32 = 0;
    for digit in word {
        value = more(value, *digit)?;
    }
    Some(value)
}

// The number that token k of a line represents, 0 for none.
pub fn figure(line: &[u8], k: u32) -> u32
    ensures { result ≡ value_of (number_of (token_of line.now k)) }
{
    read_number(token(line, k)).unwrap_or(0)
}

// Whether token k of a line is a number.
fn is_number(line: &[u8], k: u32) -> bool
    ensures { result ≡ is_number line.now k }
{
    read_number(token(line, k)).is_some()
}

// Whether the tokens from `from` up to, not including, `to` are numbers.
pub fn figures(line: &[u8], from: u32, to: u32) -> bool
    ensures { result ≡ figures_right line.now from to }
{
    for k in from..to {
        if !is_number(line, k) {
            return false;
        }
    }
    true
}
