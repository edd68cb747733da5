// Functions on ranges of bytes: count or find a byte, compare, copy, clear; and the smaller of two lengths.
#![tactic(auto)]

ghost use Rattle.std.specs.Prelude.{◌≡◌, [], ◌++◌, ◌+◌, ◌≤◌, min, length, drop, replicate};
ghost use Rattle.text.specs.Text.{same_list, substring, count_in};
ghost use Rattle.byte_slices.specs.ByteSlices.{HasBytes, bytes_written};

// How often a byte occurs in the n bytes at a place.
pub fn count_in(t: &[u8], from: usize, n: u32, byte: u8) -> u32
    requires { from + n ≤ length t.now }
    ensures { (result ≡ count_in byte (substring t.now from n)) × (result ≤ n) }
{
    let end = from + n as usize;
    let mut times: u32 = 0;
    for b in &t[from..end] {
        if *b == byte {
            times += 1;
        }
    }
    times
}

// The place of the j-th occurrence of a byte in the n bytes at a place, from their start; n if there is none.
pub fn find_nth(t: &[u8], from: usize, n: u32, byte: u8, j: u64) -> u32
    requires { (from + n ≤ length t.now) × (1 ≤ j) }
    ensures { HasBytes t.now from n byte j result }
{
    let size = n as usize;
    let mut i: usize = 0;
    for _ in 1..j {
        let k = search_byte::find(t, from + i, size - i, byte);
        if size - i <= k {
            return n;
        }
        i += k + 1;
    }
    let last = search_byte::find(t, from + i, size - i, byte);
    (i + last) as u32
}

// Copies n bytes of the text. A loop, since `copy_from_slice` would make the archive need `memmove`.
pub fn copy(out: &mut [u8], to: usize, text: &[u8], from: usize, n: usize)
    requires { (to + n ≤ length out.old) × (from + n ≤ length text.now) }
    ensures { out.new ≡ bytes_written out.old to text.now from n }
{
    let end = from + n;
    for (i, b) in text[from..end].iter().enumerate() {
        out[to + i] = *b;
    }
}

// Writes zeros into the first n bytes.
pub fn clear(buffer: &mut [u8], n: usize)
    requires { n ≤ length buffer.old }
    ensures { buffer.new ≡ replicate n 0 ++ drop n buffer.old }
{
    buffer[..n].fill(0);
}

// Writes zeros into the n bytes at a place.
pub fn clear_at(out: &mut [u8], to: usize, n: usize)
    requires { to + n ≤ length out.old }
    ensures { out.new ≡ bytes_written out.old to [] 0 n }
{
    let end = to + n;
    out[to..end].fill(0);
}

// Whether two slices are equal; stops at the first difference. A short loop, which is inlined into loops over windows and edges: `==` of slices is a call from
// the fifth byte on, and what compares bytes by it is not inlined any more.
pub fn equal(a: &[u8], b: &[u8]) -> bool
    ensures { result ≡ same_list a.now b.now }
{
    if a.len() != b.len() {
        return false;
    }
    for i in 0..a.len() {
        if a[i] != b[i] {
            return false;
        }
    }
    true
}

// Whether the n bytes at p and at q are equal.
pub fn equal_at(text: &[u8], p: usize, q: usize, n: usize) -> bool
    requires { (p + n ≤ length text.now) × (q + n ≤ length text.now) }
    ensures { result ≡ same_list (substring text.now p n) (substring text.now q n) }
{
    let p_end = p + n;
    let q_end = q + n;
    equal(&text[p..p_end], &text[q..q_end])
}

// Whether the n bytes at a place are all zero.
pub fn all_zero(t: &[u8], a: usize, n: u32) -> bool
    requires { a + n ≤ length t.now }
    ensures { result ≡ same_list (substring t.now a n) (replicate n 0) }
{
    let end = a + n as usize;
    t[a..end].iter().all(|b| *b == 0)
}

// The smaller of two lengths.
pub fn min(a: u32, b: u32) -> u32
    ensures { result ≡ min a b }
{
    a.min(b)
}
