// The answers of the calls on licence dates.
use crate::say;

// 1 for open, else 0.
pub fn open_on(first: &[u8], last: &[u8], today: &[u8]) {
    say::figures(licence::open_on(first, last, today).map(|open| [u64::from(open)]));
}

// The days left, with `-` before a number below zero.
pub fn days_left(last: &[u8], today: &[u8]) {
    match licence::days_left(last, today) {
        Ok(days) => signed(days),
        Err(refusal) => {
            say::number(refusal.number());
            say::figure(0);
        }
    }
}

fn signed(days: i32) {
    say::number(0);
    io::write_all(1, b" ");
    if days < 0 {
        io::write_all(1, b"-");
    }
    io::print_decimal(1, u64::from(days.unsigned_abs()));
}

// The day afterwards, `-` if the call is refused.
pub fn renew(day: &mut [u8]) {
    match licence::renew(day) {
        Ok(()) => {
            say::number(0);
            say::held(day);
        }
        Err(refusal) => {
            say::number(refusal.number());
            io::write_all(1, b" -");
        }
    }
}
