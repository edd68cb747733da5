// The search for a pattern in bytes that are read one at a time (Knuth, Morris, Pratt). The state is the length of the longest prefix of the pattern that is
// a suffix of the bytes read. Each byte is read once, and none is stored.
#![tactic(auto)]

ghost use Rattle.std.specs.Prelude.{◌≡◌, ◌&&◌, ◌+◌, ◌≤◌, ◌<◌, length, get_or, ltb, eqb};
ghost use Rattle.search_kmp.specs.Borders.{Next, Borders, GoesOn};

fn wide(byte: u8) -> usize
    ensures { (result ≡ byte) × (result < 256) }
{
    byte as usize
}

// Whether a byte is the pattern's at k.
fn fits(pattern: &[u8], k: usize, byte: u8) -> bool
    ensures { result ≡ (ltb k (length pattern.now) && eqb (get_or pattern.now k 0) byte) }
{
    if k < pattern.len() {
        return pattern[k] == byte;
    }
    false
}

// The state after one byte more. Number k - 1 of the borders belongs to the pattern's first k bytes.
pub fn advance(pattern: &[u8], borders: &[u8], state: usize, byte: u8) -> usize
    requires { (state ≤ length pattern.now) × (length pattern.now ≤ length borders.now) × Borders pattern.now borders.now state }
    ensures { (result ≤ length pattern.now) × (result ≤ state + 1) × Next pattern.now state byte result }
{
    let mut k = state;
    // A `while`: each step is read from the table of borders in the body, so there is no range to go over.
    while 0 < k {
        if fits(pattern, k, byte) {
            return k + 1;
        }
        k = wide(borders[k - 1]);
    }
    if fits(pattern, 0, byte) {
        return 1;
    }
    0
}

// Computes the borders of a pattern: for its first k bytes, the length of the longest proper prefix that is also a suffix of them.
pub fn prepare(pattern: &[u8], borders: &mut [u8])
    requires { (1 ≤ length pattern.now) × (length pattern.now ≤ 256) × (length pattern.now ≤ length borders.old) }
    ensures { Borders pattern.now borders.new (length pattern.now) }
{
    borders[0] = 0;
    let mut k: usize = 0;
    for i in 1..pattern.len() {
        k = advance(pattern, borders, k, pattern[i]);
        borders[i] = k as u8;
    }
}

// How many of the n bytes at a place continue a state without completing the pattern.
pub fn matching(t: &[u8], from: usize, n: usize, pattern: &[u8], state: usize) -> usize
    requires { (from + n ≤ length t.now) × (state ≤ length pattern.now) × (length pattern.now ≤ 256) }
    ensures { (result ≤ n) × GoesOn pattern.now t.now from state result }
{
    let end = from + n;
    for (k, byte) in t[from..end].iter().enumerate() {
        if pattern.len() <= state + k + 1 {
            return k;
        }
        if *byte != pattern[state + k] {
            return k;
        }
    }
    n
}
