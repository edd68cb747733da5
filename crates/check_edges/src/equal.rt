// Compares edges eight and sixteen bytes at a time. The builders use `byte_slices::equal_at`, whose short loop is inlined into their own.
ghost use Rattle.std.specs.Prelude.{◌≡◌, ◌+◌, ◌≤◌, ◌<◌, length};
ghost use Rattle.text.specs.Text.{same_list, substring};
ghost use Rattle.check_edges.specs.Eights.{eight_at};

fn wide(b: u8) -> u64
    ensures { (result ≡ b) × (result < 256) }
{
    b as u64
}

// The eight bytes at a place as one little-endian number.
fn eight(t: &[u8], at: usize) -> u64
    requires { at + 8 ≤ length t.now }
    ensures { result ≡ eight_at t.now at }
{
    wide(t[at])
        + 256 * wide(t[at + 1])
        + 65536 * wide(t[at + 2])
        + 16777216 * wide(t[at + 3])
        + 4294967296 * wide(t[at + 4])
        + 1099511627776 * wide(t[at + 5])
        + 281474976710656 * wide(t[at + 6])
        + 72057594037927936 * wide(t[at + 7])
}

// Whether the eight bytes at p and at q are equal.
fn eight_equal(t: &[u8], p: usize, q: usize) -> bool
    requires { (p + 8 ≤ length t.now) × (q + 8 ≤ length t.now) }
    ensures { result ≡ same_list (substring t.now p 8) (substring t.now q 8) }
{
    eight(t, p) == eight(t, q)
}

// Whether the n bytes at p and at q are equal, for n up to 16: from 8 bytes on the first eight and the last eight, which may overlap.
fn short_equal(t: &[u8], p: usize, q: usize, n: usize) -> bool
    requires { (n ≤ 16) × (p + n ≤ length t.now) × (q + n ≤ length t.now) }
    ensures { result ≡ same_list (substring t.now p n) (substring t.now q n) }
{
    if n < 8 {
        return byte_slices::equal_at(t, p, q, n);
    }
    if !eight_equal(t, p, q) {
        return false;
    }
    eight_equal(t, p + (n - 8), q + (n - 8))
}

// The same for n up to 32: from 17 bytes on the first sixteen and the last sixteen.
fn medium_equal(t: &[u8], p: usize, q: usize, n: usize) -> bool
    requires { (n ≤ 32) × (p + n ≤ length t.now) × (q + n ≤ length t.now) }
    ensures { result ≡ same_list (substring t.now p n) (substring t.now q n) }
{
    if n <= 16 {
        return short_equal(t, p, q, n);
    }
    if !short_equal(t, p, q, 16) {
        return false;
    }
    short_equal(t, p + (n - 16), q + (n - 16), 16)
}

// Whether the n bytes at p and at q are equal; stops at the first 32 that differ. The last 32 may overlap those before.
pub fn equal_at(t: &[u8], p: usize, q: usize, n: usize) -> bool
    requires { (p + n ≤ length t.now) × (q + n ≤ length t.now) }
    ensures { result ≡ same_list (substring t.now p n) (substring t.now q n) }
{
    if n <= 32 {
        return medium_equal(t, p, q, n);
    }
    let last = n - 32;
    for i in (0..last).step_by(32) {
        if !medium_equal(t, p + i, q + i, 32) {
            return false;
        }
    }
    medium_equal(t, p + last, q + last, 32)
}
