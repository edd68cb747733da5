// The calls on the days of a licence, exported to C. A day is eight digits.
ghost use Rattle.std.specs.Prelude.{cond, ◌≡◌};
ghost use Rattle.licence.specs.Licence.{open_on_refusal, open_on, days_left_refusal, days_left, renew_refusal, renew_buffer};

use crate::figures::put_u32;

// Whether a book licensed from a first to a last day is open on a day.
pub fn bt_open_on(first: &[u8], last: &[u8], today: &[u8], is_open: &mut u32) -> u32
    ensures value { result ≡ open_on_refusal first.now last.now today.now }
    ensures is_open_after { is_open.new ≡ cond (open_on first.now last.now today.now) 1 0 }
{
    match licence::open_on(first, last, today) {
        Ok(open) => put_u32(is_open, u32::from(open), 0),
        Err(refusal) => put_u32(is_open, 0, refusal.number()),
    }
}

// The days from today to a last day, negative after it.
pub fn bt_days_left(last: &[u8], today: &[u8], days: &mut i32) -> u32
    ensures value { result ≡ days_left_refusal last.now today.now }
    ensures days_after { days.new ≡ days_left last.now today.now }
{
    match licence::days_left(last, today) {
        Ok(n) => {
            *days = n;
            0
        }
        Err(refusal) => {
            *days = 0;
            refusal.number()
        }
    }
}

// Moves a day by one year, 29 February to 28 February.
pub fn bt_renew(day: &mut [u8]) -> u32
    ensures value { result ≡ renew_refusal day.old }
    ensures day_after { day.new ≡ renew_buffer day.old }
{
    refusals::result_refusal(licence::renew(day))
}
