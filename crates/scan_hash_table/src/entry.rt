// Enters items into the table.
ghost use Rattle.std.specs.Prelude.{◌≡◌, ◌+◌, ◌*◌, ◌≤◌, ◌<◌, length};
ghost use Rattle.scan_rolling_hash.specs.Fingerprints.{fingerprint};
ghost use Rattle.scan_hash_table.specs.ChainHeads.{max_items};
ghost use Rattle.scan_hash_table.specs.Entries.{bytes_at};
ghost use Rattle.scan_hash_table.specs.ItemsEntered.{Cleared, Put, Turn, EqualItem, Entered, Skipped};

use crate::{Items, Probe, chain_head, item};
use text::TextPlace;

// Makes all chains empty.
pub fn clear(words: &mut [u32], from: usize, n: usize)
    requires { from + n ≤ length words.old }
    ensures { Cleared words.old words.new from n }
{
    let end = from + n;
    words[from..end].fill(0);
}

// One more than an item below x with the same bytes, by the chain of their fingerprint; 0 if none is found.
fn equal_item(words: &[u32], text: &[u8], out: &[u8], it: Items, x: u32, own: Probe) -> u32
    requires { Turn text.now out.now it words.now x × (own.start.0 + own.length ≤ length text.now) × (own.fingerprint < 2147483647) }
    ensures { EqualItem text.now out.now it words.now x own.start.0 own.length result }
{
    let mut e = words[3 * it.items as usize
        + chain_head::bucket(own.fingerprint, it.heads) as usize]
        / 256;
    // A `while`: each item names the next of its chain, so there is no range to go over.
    while e != 0 {
        let at = 3 * (e - 1) as usize;
        if words[at + 1] == own.fingerprint {
            if item::occurs_at(text, out, it, e - 1, own.start, own.length) {
                return e;
            }
        }
        e = words[at];
    }
    0
}

// Prepends item x to chain g.
fn put(words: &mut [u32], it: Items, x: u32, h: u32, start: TextPlace, g: u32)
    requires { (3 * it.items + it.heads ≤ length words.old) × (it.items ≤ max_items) × (x < it.items) × (g < it.heads) }
    ensures { Put it.items words.old words.new x h start.0 g }
{
    let head = 3 * it.items as usize + g as usize;
    let at = 3 * x as usize;
    let w = words[head];
    words[at] = w / 256;
    words[at + 1] = h;
    words[at + 2] = start.0;
    words[head] = chain_head::pushed(w, h, x);
}

// Enters item x with fingerprint h: into its chain, or as equal to an item that is there.
pub fn enter(words: &mut [u32], text: &[u8], out: &[u8], it: Items, x: u32, h: u32)
    requires { Turn text.now out.now it words.old x × (h ≡ fingerprint it.seed (bytes_at text.now out.now it x)) }
    ensures { Entered text.now out.now it words.old words.new x }
{
    let own = item::bytes_of(text, out, it, x);
    let start = own.start;
    let length = own.length;
    let probe = Probe {
        fingerprint: h,
        start,
        length,
    };
    let e = equal_item(words, text, out, it, x, probe);
    if e != 0 {
        words[3 * x as usize + 2] = text.len() as u32 + (e - 1);
        return;
    }
    put(words, it, x, h, start, chain_head::bucket(h, it.heads));
}

// Marks item x as unused: the blocks are not a pair.
pub fn skip(words: &mut [u32], text: &[u8], out: &[u8], it: Items, x: u32)
    requires { Turn text.now out.now it words.old x }
    ensures { Skipped text.now out.now it words.old words.new x }
{
    words[3 * x as usize + 2] = text.len() as u32;
}
