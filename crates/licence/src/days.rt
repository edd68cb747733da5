// A day written as eight digits: year, month and day.
ghost use Rattle.std.specs.Prelude.{◌≡◌, true, ◌+◌, ◌-◌, ◌%◌, ◌≤◌, ◌<◌, length, get_or};
ghost use Rattle.text.specs.Text.{all_below, is_digit};
ghost use Rattle.licence.specs.Licence.{pair_at, written};
ghost use Rattle.licence.specs.TermSteps.{day_read};

use crate::calendar;
use crate::calendar::Date;

// The number that a digit writes.
fn digit(b: u8) -> u32
    requires { is_digit b ≡ true }
    ensures { result ≡ b - 48 }
{
    u32::from(b - 48)
}

// Whether the first eight bytes are digits.
fn digits(s: &[u8]) -> bool
    requires { 8 ≤ length s.now }
    ensures { result ≡ all_below 8 (λ i. is_digit (get_or s.now i 0)) }
{
    s[..8].iter().all(|b| b.is_ascii_digit())
}

// The number that the two digits from place i write.
fn pair(s: &[u8], i: usize) -> u32
    requires { (i + 1 < length s.now) × (is_digit (get_or s.now i 0) ≡ true) × (is_digit (get_or s.now (i + 1) 0) ≡ true) }
    ensures { (result ≡ pair_at s.now i) × (result < 100) }
{
    10 * digit(s[i]) + digit(s[i + 1])
}

// The date that the caller's bytes write, or none.
pub fn read(s: &[u8]) -> Option<Date>
    ensures { result ≡ day_read s.now }
{
    if s.len() != 8 || !digits(s) {
        return None;
    }
    let date = Date {
        year: 100 * pair(s, 0) + pair(s, 2),
        month: pair(s, 4),
        day: pair(s, 6),
    };
    calendar::is_date(date).then_some(date)
}

// The byte of a number's last digit.
fn last_digit(n: u32) -> u8
    ensures { result ≡ 48 + n % 10 }
{
    48 + (n % 10) as u8
}

// Writes a date as eight digits.
pub fn write(d: Date, out: &mut [u8])
    requires { length out.old ≡ 8 }
    ensures { out.new ≡ written d }
{
    out[0] = last_digit(d.year / 1000);
    out[1] = last_digit(d.year / 100);
    out[2] = last_digit(d.year / 10);
    out[3] = last_digit(d.year);
    out[4] = last_digit(d.month / 10);
    out[5] = last_digit(d.month);
    out[6] = last_digit(d.day / 10);
    out[7] = last_digit(d.day);
}
