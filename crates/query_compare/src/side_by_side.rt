// Reads two trees side by side by runs, which are parts of their own bytes.
ghost use Rattle.std.specs.Prelude.{true, ◌≡◌, ℕ, ◌+◌, ◌-◌, ◌≤◌, ◌<◌, min, length, get_or, Ok};
ghost use Rattle.format.specs.Answers.{replied};
ghost use Rattle.layout.specs.HeaderFields.{HeaderOf};
ghost use Rattle.query_access.specs.ReadByRuns.{ReadsOn};
ghost use Rattle.query_compare.specs.OrderAnswers.{by_lengths, compare_reply, IsCompareAnswer};
ghost use Rattle.query_compare.specs.Compared.{CompareReadsFrom, Agrees, by_byte, Comparing, RoundAnswer};

use layout::header::Header;
use layout::place::TextPlace;
use query_access::read_by_header;
use query_access::read_by_header::TreeRange;
use refusals::Refusal;
use std::cmp::Ordering;

// The largest number of bytes of a tree that are read at once: the first difference is often near.
const MOST: u32 = 1024;

// How far two trees were compared: the next place, and the rest of the run of each.
#[derive(Clone, Copy)]
pub struct Progress {
    pub place: TextPlace,
    pub one: TreeRange,
    pub other: TreeRange,
}

// Some more places are equal, or the comparison has ended. No `Result`: that it has ended is no error.
#[derive(Clone, Copy)]
pub enum Round {
    On(Progress),
    Settled(Result<(Ordering, u32), Refusal>),
}

// Compares place by place, until the bytes differ or a text ends: question 14.
pub fn by_places(one: &[u8], h: Header, other: &[u8], g: Header) -> Result<(Ordering, u32), Refusal>
    requires { (HeaderOf one.now h) × (HeaderOf other.now g) }
    ensures { IsCompareAnswer one.now other.now result }
{
    let most = byte_slices::min(h.text_length, g.text_length);
    let mut m = Progress {
        place: TextPlace(0),
        one: TreeRange { from: 0, length: 0 },
        other: TreeRange { from: 0, length: 0 },
    };
    // A `while`: each part's length is found when it is read, so there is no range to go over.
    while m.place.0 < most {
        let round = read_on(one, h, other, g, m);
        match round {
            Round::On(next) => {
                m = next;
            }
            Round::Settled(compared) => {
                return compared;
            }
        }
    }
    Ok(by_length(h.text_length, g.text_length, m.place.0))
}

// Reads the next place in the first tree, then in the second, and compares along their runs.
fn read_on(one: &[u8], h: Header, other: &[u8], g: Header, m: Progress) -> Round
    requires { (HeaderOf one.now h)
        × (HeaderOf other.now g) × (Comparing one.now other.now m) × (m.place.0 < min h.text_length g.text_length) }
    ensures { RoundAnswer one.now other.now m.place.0 result }
{
    let first = run_from(one, h, m.place, m.one);
    let Ok(x) = first else {
        return Round::Settled(Err(Refusal::PathBroken));
    };
    let second = run_from(other, g, m.place, m.other);
    let Ok(y) = second else {
        return Round::Settled(Err(Refusal::PathBroken));
    };
    compare_runs(one, x, other, y, m.place)
}

// The run of a place, or the rest of one that was read.
fn run_from(t: &[u8], h: Header, at: TextPlace, held: TreeRange) -> Result<TreeRange, Refusal>
    requires { (HeaderOf t.now h) × (at.0 < h.text_length) × ReadsOn t.now at.0 held.from held.length }
    ensures { CompareReadsFrom t.now at.0 result }
{
    if 0 < held.length {
        return Ok(held);
    }
    read_by_header::range_at(t, h, at, MOST)
}

// Compares as many bytes as both runs have.
fn compare_runs(one: &[u8], x: TreeRange, other: &[u8], y: TreeRange, place: TextPlace) -> Round
    requires { (Comparing one.now other.now (record { place = place; one = x; other = y })) × (1 ≤ x.length) × (1 ≤ y.length) }
    ensures { RoundAnswer one.now other.now place.0 result }
{
    let n = min(x.length, y.length);
    let same = agree(one, x.from, other, y.from, n);
    if same < n {
        return Round::Settled(Ok(by_byte(one, x.from, other, y.from, same, place)));
    }
    let first = rest(x, n);
    let second = rest(y, n);
    Round::On(Progress {
        place: TextPlace(place.0 + n as u32),
        one: first,
        other: second,
    })
}

// The rest of a range after some bytes.
fn rest(part: TreeRange, n: usize) -> TreeRange
    requires { (n ≤ part.length) × (part.from + part.length < 18446744073709551616) }
    ensures { result ≡ record { from = part.from + n; length = part.length - n } }
{
    TreeRange {
        from: part.from + n,
        length: part.length - n,
    }
}

// The shorter of two lengths.
fn min(a: usize, b: usize) -> usize
    ensures { result ≡ min a b }
{
    if b < a {
        return b;
    }
    a
}

// The length of the common prefix of two ranges of n bytes. Mostly all bytes agree, and a loop without an exit is compiled to vector instructions; only if
// one differs are they compared one by one.
fn agree(one: &[u8], from: usize, other: &[u8], at: usize, n: usize) -> usize
    requires { (from + n ≤ length one.now) × (at + n ≤ length other.now) }
    ensures { Agrees one.now from other.now at n result }
{
    if all_agree(one, from, other, at, n) {
        return n;
    }
    first_difference(one, from, other, at, n)
}

// Whether all bytes of two ranges of n bytes agree.
fn all_agree(one: &[u8], from: usize, other: &[u8], at: usize, n: usize) -> bool
    requires { (from + n ≤ length one.now) × (at + n ≤ length other.now) }
    ensures { result ≡ true → (x : ℕ) → x < n → get_or one.now (from + x) 0 ≡ get_or other.now (at + x) 0 }
{
    let mut same = true;
    for i in 0..n {
        if one[from + i] != other[at + i] {
            same = false;
        }
    }
    same
}

// The first of n bytes in which two ranges differ; n if they agree.
fn first_difference(one: &[u8], from: usize, other: &[u8], at: usize, n: usize) -> usize
    requires { (from + n ≤ length one.now) × (at + n ≤ length other.now) }
    ensures { Agrees one.now from other.now at n result }
{
    let (end, until) = (from + n, at + n);
    let mut pairs = one[from..end].iter().zip(&other[at..until]);
    pairs.position(|(x, y)| x != y).unwrap_or(n)
}

// The order by the first byte that differs: the k-th of two ranges, which start at a place of the text.
fn by_byte(
    one: &[u8],
    from: usize,
    other: &[u8],
    at: usize,
    k: usize,
    place: TextPlace,
) -> (Ordering, u32)
    requires { (from + k < length one.now) × (at + k < length other.now) × (place.0 + k < 4294967296) }
    ensures { replied (compare_reply (Ok result)) ≡ by_byte (get_or one.now (from + k) 0) (get_or other.now (at + k) 0) (place.0 + k) }
{
    let length = place.0 + k as u32;
    if one[from + k] < other[at + k] {
        return (Ordering::Less, length);
    }
    (Ordering::Greater, length)
}

// The order if one text is a prefix of the other: by their lengths.
fn by_length(n: u32, m: u32, at: u32) -> (Ordering, u32)
    ensures { replied (compare_reply (Ok result)) ≡ by_lengths n m at }
{
    if n < m {
        return (Ordering::Less, at);
    }
    if m < n {
        return (Ordering::Greater, at);
    }
    (Ordering::Equal, at)
}
