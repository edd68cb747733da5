// Windows of the text looked up in the table.
ghost use Rattle.std.specs.Prelude.{◌<◌};
ghost use Rattle.scan_hash_table.specs.ChainHeads.{bucket_of};
ghost use Rattle.scan_hash_table.specs.Entries.{Listed, Link, WindowLookedUp};
ghost use Rattle.scan_hash_table.specs.LookedUp.{Asks, ItemCompared, ChainTraversed};

use crate::{Items, Probe, chain_head, item};

// The window at item x of its chain.
fn compare_item(words: &mut [u32], text: &[u8], out: &[u8], it: Items, x: u32, w: Probe)
    requires { Asks text.now out.now it words.old w.fingerprint w.start.0 w.length
        × (x < it.items) × Listed text.now out.now it words.old x }
    ensures { ItemCompared text.now out.now it words.old words.new x w.start.0 w.length }
{
    let at = 3 * x as usize;
    if words[at + 1] != w.fingerprint {
        return;
    }
    if words[at + 2] <= w.start.0 {
        return;
    }
    if item::occurs_at(text, out, it, x, w.start, w.length) {
        words[at + 2] = w.start.0;
    }
}

// At every item of the chain from a link.
fn traverse_chain(words: &mut [u32], text: &[u8], out: &[u8], it: Items, w: Probe, link: u32)
    requires { Asks text.now out.now it words.old w.fingerprint w.start.0 w.length
        × Link text.now out.now it words.old (bucket_of it.heads w.fingerprint) it.items link }
    ensures { ChainTraversed text.now
        out.now it words.old words.new (bucket_of it.heads w.fingerprint) w.start.0 w.length }
{
    let mut e = link;
    // A `while`: each item names the next of its chain, so there is no range to go over.
    while e != 0 {
        let x = e - 1;
        compare_item(words, text, out, it, x, w);
        e = words[3 * x as usize];
    }
}

// Looks up a window.
pub fn look_up(words: &mut [u32], text: &[u8], out: &[u8], it: Items, w: Probe)
    requires { Asks text.now out.now it words.old w.fingerprint w.start.0 w.length }
    ensures { WindowLookedUp text.now out.now it words.old words.new w.start.0 w.length }
{
    let first = words[3 * it.items as usize + chain_head::bucket(w.fingerprint, it.heads) as usize];
    if chain_head::marked(first, w.fingerprint) {
        traverse_chain(words, text, out, it, w, first / 256);
    }
}
