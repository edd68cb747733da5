// The result of the walk of a short span as one number, which a function returns in a register: 0 if there is none, else one more than a number that has
// whether the span crosses a border, the number of blocks entered, the length of the first part and its place, from the lowest digits on.
ghost use Rattle.std.specs.Prelude.{◌≡◌, ◌+◌, ◌*◌, ◌≤◌, ◌<◌};
ghost use Rattle.format.specs.Layout.{max_leaf};
ghost use Rattle.format.specs.Layout as at;
ghost use Rattle.walk_short.specs.Gathered.{packed, unpacked};

use crate::gather::Parts;

// The number for a first part; `crossing` is 1 if the span crosses a border, else 0.
pub fn pack(crossing: u32, entered: u32, size: u32, from: usize) -> u64
    requires { (crossing < 2) × (entered < 32) × (size < 512) × (from < 281474976710656) }
    ensures { result ≡ packed crossing entered size from }
{
    1 + (crossing as u64 + 2 * (entered as u64 + 32 * (size as u64 + 512 * from as u64)))
}

// What a number stands for. Where the span crosses a border, its second part is in the first edge of the next block.
pub fn unpack(t: &[u8], size: u32, m: u32, code: u64) -> Option<Parts>
    requires { (size ≡ at.record_size t.now) × (m ≡ (at.settings t.now).leaf) × (m ≤ max_leaf) × (m + m ≤ size) }
    ensures { result ≡ unpacked t.now code }
{
    if code == 0 {
        return None;
    }
    let rest = (code - 1) / 2;
    let upper = rest / 32;
    let entered = (rest % 32) as u32;
    let from = (upper / 512) as usize;
    let len = (upper % 512) as u32;
    if (code - 1) % 2 == 0 {
        return Some(Parts {
            entered,
            from,
            size: len,
            next: 0,
        });
    }
    Some(Parts {
        entered,
        from,
        size: len,
        next: from + len as usize + (size - (m + m)) as usize,
    })
}
