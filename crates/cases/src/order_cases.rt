// The order of two trees: a line names both.
use crate::wrong;
use cases_tokens::hexadecimal::Fault;

// Room for the second tree.
const ROOM: usize = 16384;

// Answers a line whose word is `order`.
pub fn line(script: &[u8], line: &[u8], bytes: &mut [u8]) -> bool {
    if !check::same(cases_tokens::token(line, 0), b"order") {
        return false;
    }
    if cases_tokens::ends(line, 3) {
        ask(script, line, bytes);
    } else {
        wrong::fault(Fault::Number);
    }
    true
}

fn ask(script: &[u8], line: &[u8], bytes: &mut [u8]) {
    let made = cases_script::named(script, cases_tokens::token(line, 1), bytes);
    match made {
        Ok(n) => beside(script, line, &bytes[..n]),
        Err(f) => wrong::fault(f),
    }
}

// The order, with the first tree read.
fn beside(script: &[u8], line: &[u8], one: &[u8]) {
    let mut room = [0u8; ROOM];
    let made = cases_script::named(script, cases_tokens::token(line, 2), &mut room);
    match made {
        Ok(n) => cases_replies::order_replies::order(one, &room[..n]),
        Err(f) => wrong::fault(f),
    }
}
