// The first occurrence of a byte. Sixteen bytes are compared at once: their results are the binary digits of one number, and that
// number's trailing zeros are the bytes before the first occurrence. The sum of two halves on each level is what the compiler
// turns into one vector comparison.
#![tactic(auto)]

ghost use Rattle.std.specs.Prelude.{◌≡◌, ◌+◌, ◌≤◌, ◌<◌, min, length};
ghost use Rattle.search_byte.specs.FirstByte.{FirstByte, bit_of, mask_of};

fn bit(a: u8, b: u8) -> u32
    ensures { (result ≡ bit_of a b) × (result < 2) }
{
    if a == b {
        return 1;
    }
    0
}

fn mask2(t: &[u8], at: usize, byte: u8) -> u32
    requires { at + 2 ≤ length t.now }
    ensures { (result ≡ mask_of 2 t.now at byte) × (result < 4) }
{
    bit(t[at], byte) + 2 * bit(t[at + 1], byte)
}

fn mask4(t: &[u8], at: usize, byte: u8) -> u32
    requires { at + 4 ≤ length t.now }
    ensures { (result ≡ mask_of 4 t.now at byte) × (result < 16) }
{
    mask2(t, at, byte) + 4 * mask2(t, at + 2, byte)
}

fn mask8(t: &[u8], at: usize, byte: u8) -> u32
    requires { at + 8 ≤ length t.now }
    ensures { (result ≡ mask_of 8 t.now at byte) × (result < 256) }
{
    mask4(t, at, byte) + 16 * mask4(t, at + 4, byte)
}

fn mask16(t: &[u8], at: usize, byte: u8) -> u32
    requires { at + 16 ≤ length t.now }
    ensures { (result ≡ mask_of 16 t.now at byte) × (result < 65536) }
{
    mask8(t, at, byte) + 256 * mask8(t, at + 8, byte)
}

// The first of sixteen bytes. The digit above them stops the count of zeros.
fn first_of_16(t: &[u8], at: usize, byte: u8) -> usize
    requires { at + 16 ≤ length t.now }
    ensures { FirstByte t.now at 16 byte result }
{
    u32::trailing_zeros(65536 + mask16(t, at, byte)) as usize
}

fn one_by_one(t: &[u8], from: usize, n: usize, byte: u8) -> usize
    requires { from + n ≤ length t.now }
    ensures { FirstByte t.now from n byte result }
{
    let end = from + n;
    t[from..end].iter().position(|b| *b == byte).unwrap_or(n)
}

// Fewer than sixteen bytes. Sixteen are compared at once if the slice has that many.
fn tail(t: &[u8], from: usize, n: usize, byte: u8) -> usize
    requires { (from + n ≤ length t.now) × (n < 16) }
    ensures { FirstByte t.now from n byte result }
{
    if t.len() - from < 16 {
        return one_by_one(t, from, n, byte);
    }
    let k = first_of_16(t, from, byte);
    if n < k {
        return n;
    }
    k
}

// The place of the first occurrence of a byte in the n bytes at a place, from their start; n if there is none.
pub fn find(t: &[u8], from: usize, n: usize, byte: u8) -> usize
    requires { from + n ≤ length t.now }
    ensures { FirstByte t.now from n byte result }
{
    for block in 0..n / 16 {
        let i = 16 * block;
        let k = first_of_16(t, from + i, byte);
        if k < 16 {
            return i + k;
        }
    }
    let i = n - n % 16;
    i + tail(t, from + i, n - i, byte)
}
