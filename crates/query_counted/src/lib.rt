// A counted byte: its number in the header, and how often it occurs in the whole text. Count, find and row use it.
#![tactic(auto)]

ghost use Rattle.std.specs.Prelude.{◌≡◌, ◌≤◌, ◌<◌};
ghost use Rattle.format.specs.Layout as at;
ghost use Rattle.format.specs.Answers.{number_of_byte};
ghost use Rattle.format.specs.Answers as find;
ghost use Rattle.layout.specs.HeaderFields.{HeaderOf};
ghost use Rattle.query_counted.specs.Named.{Names};

use layout::header::Header;
use layout::place::BlockNumber;
use layout::{header, record};

// A counted byte and its number.
#[derive(Clone, Copy)]
pub struct CountedByte {
    pub byte: u8,
    pub number: u32,
}

// The number of a counted byte: its index among the k counted bytes, or k if it is not one of them.
pub fn number_of(t: &[u8], k: u32, byte: u8) -> u32
    requires { Names t.now k }
    ensures { (result ≡ number_of_byte t.now byte) × (result ≤ k) }
{
    let end = header::COUNTED_AT + k as usize;
    let found = t[header::COUNTED_AT..end].iter().position(|x| *x == byte);
    found.unwrap_or(k as usize) as u32
}

// How often a counted byte occurs in the text: the sum of before and inside of the last block of level 0, or 0 if there is no block.
pub fn total(t: &[u8], h: Header, number: u32) -> u64
    requires { (HeaderOf t.now h) × (number < at.counted_count t.now) }
    ensures { result ≡ find.total t.now number }
{
    let count = record::level_count(t, 0);
    if count == 0 {
        return 0;
    }
    let last = BlockNumber(count - 1);
    let before = record::before(t, h.record_size, 0, last, number) as u64;
    before + record::inside(t, h.record_size, 0, last, number) as u64
}
