// How a text is divided into blocks: the last one ends with the text.
ghost use Rattle.std.specs.Prelude.{◌≡◌, ◌-◌, ◌≤◌, min};

use text::TextPlace;

// The length of the block that starts at a place of a text of n bytes: b, or less if the text ends before.
pub fn length_from(n: u32, start: TextPlace, b: u32) -> u32
    ensures { (result ≡ min b (n - start.0)) × (result ≤ b) }
{
    if n <= start.0 {
        return 0;
    }
    let left = n - start.0;
    if left < b {
        return left;
    }
    b
}
