// Words: little-endian 32-bit numbers.
ghost use Rattle.std.specs.Prelude.{◌≡◌, ◌+◌, ◌≤◌, ◌<◌, length};
ghost use Rattle.format.specs.Layout.{word_at, set_word};
ghost use Rattle.format.specs.WordLaws.{put_three};

fn wide(b: u8) -> u32
    ensures { (result ≡ b) × (result < 256) }
{
    b as u32
}

// The word at an offset; the slice has its four bytes.
pub fn read(t: &[u8], at: usize) -> u32
    requires { at + 4 ≤ length t.now }
    ensures { result ≡ word_at t.now at }
{
    wide(t[at]) + 256 * wide(t[at + 1]) + 65536 * wide(t[at + 2]) + 16777216 * wide(t[at + 3])
}

// Writes the four bytes of a word, and nothing else.
pub fn write(t: &mut [u8], at: usize, value: u32)
    requires { at + 4 ≤ length t.old }
    ensures { t.new ≡ set_word t.old at value }
{
    t[at] = (value % 256) as u8;
    t[at + 1] = (value / 256 % 256) as u8;
    t[at + 2] = (value / 65536 % 256) as u8;
    t[at + 3] = (value / 16777216 % 256) as u8;
}

// Writes three words, one after the other.
pub fn put_three(t: &mut [u8], at: usize, a: u32, b: u32, c: u32)
    requires { at + 12 ≤ length t.old }
    ensures { t.new ≡ put_three t.old at a b c }
{
    write(t, at, a);
    write(t, at + 4, b);
    write(t, at + 8, c);
}
