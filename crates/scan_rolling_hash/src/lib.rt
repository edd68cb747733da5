// Windows that roll over a text. Their fingerprints are modulo the prime 2^31 - 1, with a base from a seed: a text that is chosen without knowing the seed
// has equal fingerprints of different windows only by chance.
#![tactic(auto)]

ghost use Rattle.std.specs.Prelude.{◌≡◌, ◌+◌, ◌-◌, ◌*◌, ◌/◌, ◌%◌, ◌^◌, ◌≤◌, ◌<◌, length, take, get_or};
ghost use Rattle.text.specs.Text.{substring};
ghost use Rattle.scan_rolling_hash.specs.Fingerprints.{base_of, fingerprint};
ghost use Rattle.scan_rolling_hash.specs.Windows.{WindowAt};

use text::TextPlace;

// A window of the text: its length, the factor of the byte that leaves it, the fingerprint of its bytes, the number of places of the text where it fits, and
// the number of places where it was looked up, the current one included.
#[derive(Clone, Copy)]
pub struct Window {
    pub len: u32,
    pub leaving: u32,
    pub fingerprint: u32,
    pub places: u32,
    pub looked: u32,
}

// A place of the text, and the byte there.
#[derive(Clone, Copy)]
pub struct ByteAt {
    pub place: TextPlace,
    pub byte: u8,
}

// The first four powers of the base.
#[derive(Clone, Copy)]
struct Powers {
    one: u32,
    two: u32,
    three: u32,
    four: u32,
}

fn base_of(seed: u32) -> u32
    ensures { result ≡ base_of seed }
{
    seed % 1073741824
}

// A smaller number with the same remainder modulo 2^31 - 1, since 2^31 has the remainder 1.
fn fold(x: u64) -> u64
    ensures { result ≡ x % 2147483648 + x / 2147483648 }
{
    x % 2147483648 + x / 2147483648
}

// The remainder modulo 2^31 - 1.
fn reduce(x: u64) -> u32
    requires { x < 4611686016279904256 }
    ensures { result ≡ x % 2147483647 }
{
    let y = fold(x);
    if y < 2147483647 {
        return y as u32;
    }
    (y - 2147483647) as u32
}

// A number with the remainder of the fingerprint after one more byte.
fn push(base: u32, h: u64, enters: u8) -> u64
    requires { (h < 8589934592) × (base < 1073741824) }
    ensures { (result % 2147483647 ≡ (h + enters) * base % 2147483647) × (result < 8589934592) }
{
    fold((h + enters as u64) * base as u64)
}

// The same after four more bytes. A step for each byte would wait for the one before.
fn push_four(by: Powers, h: u64, a: u8, b: u8, c: u8, d: u8) -> u64
    requires { (h < 4294967296) × (by.one < 2147483647) × (by.two < 2147483647) × (by.three < 2147483647) × (by.four < 2147483647) }
    ensures { (result % 2147483647 ≡ (by.four * (h + a) + by.three * b + by.two * c + by.one * d) % 2147483647) × (result < 4294967296) }
{
    let sum = by.four as u64 * (h + a as u64)
        + by.three as u64 * b as u64
        + by.two as u64 * c as u64
        + by.one as u64 * d as u64;
    fold(fold(sum))
}

// The fingerprint of a window moved by one byte.
fn roll(base: u32, h: u32, leaving: u32, leaves: u8, enters: u8) -> u32
    requires { (base < 1073741824) × (h < 2147483647) × (leaving ≤ 2147483647) }
    ensures { result ≡ ((h + enters) * base + leaves * leaving) % 2147483647 }
{
    reduce((h as u64 + enters as u64) * base as u64 + leaves as u64 * leaving as u64)
}

// The fingerprint of two byte strings, one after the other; `top` is the power of the base for the length of the second.
pub fn join(h: u32, top: u32, next: u32) -> u32
    ensures { result ≡ (h * top + next) % 2147483647 }
{
    ((h as u64 * top as u64 + next as u64) % 2147483647) as u32
}

// The n-th power of the base.
pub fn power(seed: u32, n: u32) -> u32
    ensures { result ≡ base_of seed ^ n % 2147483647 }
{
    let base = base_of(seed);
    let mut w: u32 = 1;
    for _ in 0..n {
        w = push_power(base, w);
    }
    w
}

fn push_power(base: u32, w: u32) -> u32
    requires { (base < 1073741824) × (w < 2147483647) }
    ensures { result ≡ w * base % 2147483647 }
{
    reduce(w as u64 * base as u64)
}

fn first_powers(seed: u32) -> Powers
    ensures { (result.one ≡ base_of seed) × (result.two ≡ base_of seed * base_of seed % 2147483647)
        × (result.three ≡ base_of seed * base_of seed * base_of seed % 2147483647)
        × (result.four ≡ base_of seed * base_of seed * base_of seed * base_of seed % 2147483647) }
{
    let one = base_of(seed);
    let two = join(one, one, 0);
    let three = join(two, one, 0);
    let four = join(three, one, 0);
    Powers {
        one,
        two,
        three,
        four,
    }
}

// The fingerprint of bytes; h has the remainder of the fingerprint of those before a place.
fn finish(seed: u32, h: u64, s: &[u8], from: usize) -> u32
    requires { (h < 8589934592) × (from ≤ length s.now) × (h % 2147483647 ≡ fingerprint seed (take from s.now)) }
    ensures { result ≡ fingerprint seed s.now }
{
    let base = base_of(seed);
    let mut g = h;
    for x in &s[from..] {
        g = push(base, g, *x);
    }
    reduce(g)
}

pub fn fingerprint(seed: u32, s: &[u8]) -> u32
    ensures { result ≡ fingerprint seed s.now }
{
    let by = first_powers(seed);
    let mut h: u64 = 0;
    let (fours, rest) = s.as_chunks::<4>();
    for [a, b, c, d] in fours {
        h = push_four(by, h, *a, *b, *c, *d);
    }
    finish(seed, h, s, s.len() - rest.len())
}

// The fingerprint of the n bytes at p.
pub fn fingerprint_at(seed: u32, text: &[u8], p: TextPlace, n: u32) -> u32
    requires { p.0 + n ≤ length text.now }
    ensures { result ≡ fingerprint seed (substring text.now p.0 n) }
{
    let from = p.0 as usize;
    let end = from + n as usize;
    fingerprint(seed, &text[from..end])
}

// The window of n bytes at the start of the text. A window of 0 bytes fits at no place.
pub fn first_window(seed: u32, text: &[u8], n: u32) -> Window
    requires { (n ≤ length text.now) × (length text.now < 4294967295) }
    ensures { WindowAt seed text.now n 0 result }
{
    if n == 0 {
        return Window {
            len: 0,
            leaving: 0,
            fingerprint: 0,
            places: 0,
            looked: 0,
        };
    }
    Window {
        len: n,
        leaving: 2147483647 - power(seed, n + 1),
        fingerprint: fingerprint_at(seed, text, TextPlace(0), n),
        places: text.len() as u32 - n + 1,
        looked: 1,
    }
}

// A window moved from a place to the next.
pub fn next_window(seed: u32, text: &[u8], w: Window, here: ByteAt) -> Window
    requires { WindowAt seed text.now w.len here.place.0 w × (here.place.0 + 1 < w.places)
        × (here.byte ≡ get_or text.now here.place.0 0) }
    ensures { WindowAt seed text.now w.len (here.place.0 + 1) result }
{
    let enters = text[here.place.0 as usize + w.len as usize];
    Window {
        len: w.len,
        leaving: w.leaving,
        fingerprint: roll(base_of(seed), w.fingerprint, w.leaving, here.byte, enters),
        places: w.places,
        looked: w.looked + 1,
    }
}
