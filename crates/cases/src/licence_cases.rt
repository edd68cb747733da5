// Licence dates: days in hexadecimal, and no tree.
ghost use Rattle.std.specs.Prelude.{◌≤◌};

use crate::wrong;
use cases_tokens::hexadecimal::Fault;

// Room for a day, and for more bytes than a day has.
const ROOM: usize = 64;

// Answers a line that begins with one of these words, and returns whether it does.
pub fn line(line: &[u8]) -> bool {
    let days = days_of(cases_tokens::token(line, 0));
    if days == 0 {
        return false;
    }
    if cases_tokens::ends(line, days + 1) {
        with_first(line, days);
    } else {
        wrong::fault(Fault::Number);
    }
    true
}

// The number of days that the line of a word has, 0 for another word.
fn days_of(word: &[u8]) -> u32
    ensures { result ≤ 3 }
{
    if check::same(word, b"open") {
        return 3;
    }
    if check::same(word, b"left") {
        return 2;
    }
    if check::same(word, b"renew") {
        return 1;
    }
    0
}

// Reads the first day.
fn with_first(line: &[u8], days: u32) {
    let mut first = [0u8; ROOM];
    let made = cases_tokens::hex(cases_tokens::token(line, 1), &mut first);
    match made {
        Ok(n) => of_one(&mut first[..n], line, days),
        Err(f) => wrong::fault(f),
    }
}

fn of_one(first: &mut [u8], line: &[u8], days: u32) {
    if days == 1 {
        cases_replies::licence_replies::renew(first);
    } else {
        with_second(first, line, days);
    }
}

// Reads the second day.
fn with_second(first: &[u8], line: &[u8], days: u32) {
    let mut second = [0u8; ROOM];
    let made = cases_tokens::hex(cases_tokens::token(line, 2), &mut second);
    match made {
        Ok(n) => of_two(first, &second[..n], line, days),
        Err(f) => wrong::fault(f),
    }
}

fn of_two(first: &[u8], second: &[u8], line: &[u8], days: u32) {
    if days == 2 {
        cases_replies::licence_replies::days_left(first, second);
    } else {
        with_third(first, second, line);
    }
}

// Reads the third day.
fn with_third(first: &[u8], second: &[u8], line: &[u8]) {
    let mut third = [0u8; ROOM];
    let made = cases_tokens::hex(cases_tokens::token(line, 3), &mut third);
    match made {
        Ok(n) => cases_replies::licence_replies::open_on(first, second, &third[..n]),
        Err(f) => wrong::fault(f),
    }
}
