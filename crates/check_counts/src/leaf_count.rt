// Counts a byte in the bytes of one leaf.
ghost use Rattle.std.specs.Prelude.{◌≡◌, ◌+◌, ◌≤◌, ◌<◌, length};
ghost use Rattle.text.specs.Text.{substring, count_in};
ghost use Rattle.format.specs.Layout.{max_leaf};

// How often a byte occurs in at most m bytes. A short counter lets the compiler compare sixteen bytes at a time.
pub fn leaf_count(t: &[u8], from: usize, n: u32, byte: u8) -> u16
    requires { (from + n ≤ length t.now) × (n ≤ max_leaf) }
    ensures { (result ≡ count_in byte (substring t.now from n)) × (result ≤ n) }
{
    let mut times: u16 = 0;
    for x in &t[from..from + n as usize] {
        if *x == byte {
            times += 1;
        }
    }
    times
}
