// Items: their bytes, and comparing them.
ghost use Rattle.std.specs.Prelude.{◌&&◌, ◌≡◌, ◌+◌, ◌≤◌, ◌<◌, length, eqb};
ghost use Rattle.text.specs.Text.{same_list, substring};
ghost use Rattle.scan_hash_table.specs.Entries.{Placed, RunIs, length_at, bytes_at};

use crate::{ItemBytes, Items};
use layout::word;
use text::TextPlace;

// The bytes of item x.
pub fn bytes_of(text: &[u8], out: &[u8], it: Items, x: u32) -> ItemBytes
    requires { Placed text.now out.now it × (x < it.items) }
    ensures { RunIs text.now out.now it x result }
{
    let start = word::read(
        out,
        it.records as usize + (x / 2) as usize * it.step as usize,
    );
    ItemBytes {
        start: TextPlace(start),
        length: byte_slices::min(it.size * (x % 2 + 1), text.len() as u32 - start),
    }
}

// Whether the n bytes at p are those of item x.
pub fn occurs_at(text: &[u8], out: &[u8], it: Items, x: u32, p: TextPlace, n: u32) -> bool
    requires { Placed text.now out.now it × (x < it.items) × (p.0 + n ≤ length text.now) }
    ensures { result ≡ eqb (length_at text.now out.now it x) n
        && same_list (bytes_at text.now out.now it x) (substring text.now p.0 n) }
{
    let own = bytes_of(text, out, it, x);
    if own.length != n {
        return false;
    }
    let from = own.start.0 as usize;
    let at = p.0 as usize;
    byte_slices::equal_at(text, from, at, n as usize)
}
