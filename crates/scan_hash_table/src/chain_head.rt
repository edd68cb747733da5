// The heads of the chains of the hash table.
ghost use Rattle.std.specs.Prelude.{◌≡◌, ◌+◌, ◌%◌, ◌<◌, ◌≤◌, eqb};
ghost use Rattle.scan_hash_table.specs.ChainHeads.{max_items, mark_of, bucket_of, Pushed};

// The number of the chain for a fingerprint.
pub fn bucket(h: u32, heads: u32) -> u32
    requires { (1 ≤ heads) × (h < 2147483647) }
    ensures { (result ≡ bucket_of heads h) × (result < heads) }
{
    (h as u64 * heads as u64 / 2147483648) as u32
}

// Whether the chain of a head may have an item with this fingerprint.
pub fn marked(w: u32, h: u32) -> bool
    ensures { result ≡ eqb (mark_of w (h % 8)) 1 }
{
    (w >> (h % 8)) % 2 == 1
}

// The head after item x is prepended to its chain.
pub fn pushed(w: u32, h: u32, x: u32) -> u32
    requires { x < max_items }
    ensures { Pushed w h x result }
{
    (x + 1) * 256 + (w % 256 | 1 << (h % 8))
}
