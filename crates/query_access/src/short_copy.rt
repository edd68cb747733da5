// Copies of a few bytes, by words and pairs of words: a loop over single bytes costs branches that are predicted wrongly.
ghost use Rattle.std.specs.Prelude.{◌≡◌, ◌+◌, ◌≤◌, length};
ghost use Rattle.byte_slices.specs.ByteSlices.{bytes_written};

use layout::word;

// Copies 4 bytes.
fn copy_word(out: &mut [u8], to: usize, text: &[u8], from: usize)
    requires { (to + 4 ≤ length out.old) × (from + 4 ≤ length text.now) }
    ensures { out.new ≡ bytes_written out.old to text.now from 4 }
{
    word::write(out, to, word::read(text, from));
}

// Copies 8 bytes. Both words are read before one is written, so that the compiler moves them at once.
fn copy_pair(out: &mut [u8], to: usize, text: &[u8], from: usize)
    requires { (to + 8 ≤ length out.old) × (from + 8 ≤ length text.now) }
    ensures { out.new ≡ bytes_written out.old to text.now from 8 }
{
    let low = word::read(text, from);
    let high = word::read(text, from + 4);
    word::write(out, to, low);
    word::write(out, to + 4, high);
}

// Copies n bytes, of which there are few. The last word or pair may overlap those before it, whose bytes it writes again.
pub fn copy_short(out: &mut [u8], to: usize, text: &[u8], from: usize, n: usize)
    requires { (to + n ≤ length out.old) × (from + n ≤ length text.now) }
    ensures { out.new ≡ bytes_written out.old to text.now from n }
{
    if n < 4 {
        byte_slices::copy(out, to, text, from, n);
        return;
    }
    if n < 8 {
        copy_word(out, to, text, from);
        copy_word(out, to + (n - 4), text, from + (n - 4));
        return;
    }
    for j in (0..n - 8).step_by(8) {
        copy_pair(out, to + j, text, from + j);
    }
    copy_pair(out, to + (n - 8), text, from + (n - 8));
}
