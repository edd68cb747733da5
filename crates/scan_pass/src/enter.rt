// Enters the blocks and pairs of a level in their order, and notes their lengths.
ghost use Rattle.std.specs.Prelude.{◌≡◌, ◌+◌, ◌-◌, ◌*◌, ◌%◌, ◌^◌, ◌≤◌, ◌<◌, length};
ghost use Rattle.format.specs.Layout.{max_text};
ghost use Rattle.scan_rolling_hash.specs.Fingerprints.{base_of, fingerprint};
ghost use Rattle.scan_hash_table.specs.Entries.{Laid, Placed, bytes_at};
ghost use Rattle.scan_hash_table.specs.ItemsEntered.{Turn};
ghost use Rattle.scan_pass.specs.Passes.{Ordered, EnteredItems, LengthsOf, with_length, ItemProcessed, PairAnswer};

use crate::Lengths;
use layout::place::BlockNumber;
use scan_hash_table::{Items, entry, item};

// The fingerprints of a block and of the next one, and the power of the base for a full block.
#[derive(Clone, Copy)]
struct PairFingerprints {
    own: u32,
    next: u32,
    top: u32,
}

// The lengths with n added; 0 adds nothing.
fn with_length(l: Lengths, size: u32, n: u32) -> Lengths
    requires { size ≤ max_text }
    ensures { result ≡ with_length l size n }
{
    if n == 0 {
        return l;
    }
    if n < size {
        return Lengths {
            block: l.block,
            pair: l.pair,
            last: n,
            ending: l.ending,
        };
    }
    if n == size {
        return Lengths {
            block: n,
            pair: l.pair,
            last: l.last,
            ending: l.ending,
        };
    }
    if n == size + size {
        return Lengths {
            block: l.block,
            pair: n,
            last: l.last,
            ending: l.ending,
        };
    }
    Lengths {
        block: l.block,
        pair: l.pair,
        last: l.last,
        ending: n,
    }
}

// The fingerprint of block i.
fn block_fingerprint(text: &[u8], out: &[u8], it: Items, i: BlockNumber) -> u32
    requires { Placed text.now out.now it × (2 * i.0 < it.items) }
    ensures { result ≡ fingerprint it.seed (bytes_at text.now out.now it (2 * i.0)) }
{
    let own = item::bytes_of(text, out, it, 2 * i.0);
    scan_rolling_hash::fingerprint_at(it.seed, text, own.start, own.length)
}

// The power of the base for the second block of a pair of n bytes; `top` is that of a full block.
fn pair_power(seed: u32, n: u32, size: u32, top: u32) -> u32
    requires { (size ≤ n) × (size ≤ max_text) × (top ≡ base_of seed ^ size % 2147483647) }
    ensures { result ≡ base_of seed ^ (n - size) % 2147483647 }
{
    if n == size + size {
        return top;
    }
    scan_rolling_hash::power(seed, n - size)
}

// Enters the pair of blocks i and i + 1, if they are one. Returns its length, 0 if they are not.
fn enter_pair(
    words: &mut [u32],
    text: &[u8],
    out: &[u8],
    it: Items,
    i: BlockNumber,
    both: PairFingerprints,
) -> u32
    requires turn { Turn text.now out.now it words.old (2 * i.0 + 1) × Ordered text.now out.now it × (2 * i.0 + 2 < it.items) }
    requires own_value { (both.own ≡ fingerprint it.seed (bytes_at text.now out.now it (2 * i.0)))
        × (both.next ≡ fingerprint it.seed (bytes_at text.now out.now it (2 * i.0 + 2)))
        × (both.top ≡ base_of it.seed ^ it.size % 2147483647) }
    ensures item_processed { ItemProcessed text.now out.now it words.old words.new (2 * i.0 + 1) }
    ensures pair_answer { PairAnswer text.now out.now it (2 * i.0 + 1) result }
{
    let x = 2 * i.0 + 1;
    let own = item::bytes_of(text, out, it, x);
    let second = item::bytes_of(text, out, it, x + 1);
    if second.start.0 != own.start.0 + it.size {
        entry::skip(words, text, out, it, x);
        return 0;
    }
    let power = pair_power(it.seed, own.length, it.size, both.top);
    entry::enter(
        words,
        text,
        out,
        it,
        x,
        scan_rolling_hash::join(both.own, power, both.next),
    );
    own.length
}

// Enters block i and the pair of blocks i and i + 1. Returns the length of the pair, 0 if there is none.
fn enter_both(
    words: &mut [u32],
    text: &[u8],
    out: &[u8],
    it: Items,
    i: BlockNumber,
    both: PairFingerprints,
) -> u32
    requires entered_items { EnteredItems text.now out.now it words.old (2 * i.0) × Ordered text.now out.now it × (2 * i.0 + 2 < it.items) }
    requires own_value { (both.own ≡ fingerprint it.seed (bytes_at text.now out.now it (2 * i.0)))
        × (both.next ≡ fingerprint it.seed (bytes_at text.now out.now it (2 * i.0 + 2)))
        × (both.top ≡ base_of it.seed ^ it.size % 2147483647) }
    ensures entered_items_2 { EnteredItems text.now out.now it words.new (2 * i.0 + 2) }
    ensures pair_answer { PairAnswer text.now out.now it (2 * i.0 + 1) result }
{
    entry::enter(words, text, out, it, 2 * i.0, both.own);
    enter_pair(words, text, out, it, i, both)
}

// Enters all blocks and pairs of a level.
pub fn enter_level(words: &mut [u32], text: &[u8], out: &[u8], it: Items) -> Lengths
    requires { Laid text.now out.now it (length words.old) × Ordered text.now out.now it }
    ensures { EnteredItems text.now out.now it words.new it.items
        × LengthsOf text.now out.now it it.items result }
{
    entry::clear(words, 3 * it.items as usize, it.heads as usize);
    let top = scan_rolling_hash::power(it.seed, it.size);
    let mut l = Lengths {
        block: 0,
        pair: 0,
        last: 0,
        ending: 0,
    };
    let mut h = block_fingerprint(text, out, it, BlockNumber(0));
    let last = it.items / 2;
    for i in 0..last {
        let next = block_fingerprint(text, out, it, BlockNumber(i + 1));
        let both = PairFingerprints { own: h, next, top };
        let n = enter_both(words, text, out, it, BlockNumber(i), both);
        l = with_length(with_length(l, it.size, it.size), it.size, n);
        h = next;
    }
    entry::enter(words, text, out, it, 2 * last, h);
    with_length(l, it.size, item::bytes_of(text, out, it, 2 * last).length)
}
