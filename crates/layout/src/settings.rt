// The settings of a tree and their bounds.
ghost use Rattle.std.specs.Prelude.{◌≡◌, ◌+◌, ◌*◌, ◌%◌, ◌^◌, ◌-◌, ◌≤◌, ◌<◌};
ghost use Rattle.format.specs.Layout.{sizes_ok, rising, record_length, max_text, max_leaf, max_arity, max_levels, max_counted};
ghost use Rattle.layout.specs.CheckedSettings.{sizes, checked};
ghost use Rattle.format.specs.SizeLaws.{max_record};
ghost use Rattle.format.specs.Layout as format;
ghost use Rattle.layout.specs.SettingsLevel.{Sized};

use crate::record;
use refusals::Refusal;

// The size of the words of a record, in bytes: of every record, and for each counted byte.
const PLAIN: u32 = record::PLAIN_BYTES as u32;

const COUNTED: u32 = record::COUNTED_BYTES as u32;

// The settings of a tree. It has the number of counted bytes; the bytes themselves remain with the caller.
#[derive(Clone, Copy)]
pub struct Settings {
    // m, the leaf length: the bytes of a full block of the last level.
    pub leaf: u32,
    // r, the arity: the children of a full block.
    pub arity: u32,
    // H, the number of levels.
    pub levels: u32,
    // k, the number of counted bytes.
    pub counted: u32,
}

impl Settings {
    // The largest length of a text, and of a level 0 block.
    pub const MAX_TEXT: u32 = 8388608;

    pub const MIN_LEAF: u32 = 1;

    pub const MAX_LEAF: u32 = 256;

    pub const MIN_ARITY: u32 = 2;

    pub const MAX_ARITY: u32 = 16;

    pub const MIN_LEVELS: u32 = 1;

    pub const MAX_LEVELS: u32 = 8;

    pub const MAX_COUNTED: usize = 4;

    // The layouts without and with edges.
    pub const PLAIN: u32 = 1;

    pub const EDGED: u32 = 2;

    // The settings, or the question that refuses them: 2 for m, r and H, 3 for the counted bytes.
    pub fn new(leaf: u32, arity: u32, levels: u32, counted: &[u8]) -> Result<Settings, Refusal>
        ensures { result ≡ checked leaf arity levels counted.now }
    {
        if !sizes_fit(leaf, arity, levels) {
            return Err(Refusal::SettingsOutOfBounds);
        }
        if Settings::MAX_COUNTED < counted.len() {
            return Err(Refusal::CountedBytesWrong);
        }
        if !rises(counted) {
            return Err(Refusal::CountedBytesWrong);
        }
        Ok(Settings {
            leaf,
            arity,
            levels,
            counted: counted.len() as u32,
        })
    }

    // The block length b of a level.
    pub fn block_length(self, level: u32) -> u32
        requires { Sized self level }
        ensures { result ≡ self.leaf * self.arity ^ (self.levels - 1 - level) }
    {
        let b = power(self.leaf, self.arity, self.levels - 1 - level);
        b as u32
    }

    // The number of bytes of a record: its words, and in layout 2 two edges of m bytes.
    pub fn record_size(self, layout: u32) -> u32
        requires { (self.leaf ≤ max_leaf) × (self.counted ≤ max_counted) }
        ensures { (result ≡ record_length layout self.leaf self.counted) × (result ≤ max_record) }
    {
        let words = PLAIN + COUNTED * self.counted;
        if layout == Settings::EDGED {
            return words + (self.leaf + self.leaf);
        }
        words
    }
}

// The number of blocks of b bytes that x bytes are divided into; the last one may be shorter.
pub fn pieces(x: u32, b: u32) -> u32
    requires { (x ≤ max_text) × (0 < b) × (b ≤ max_text) }
    ensures { result ≡ format.pieces x b }
{
    (x + (b - 1)) / b
}

// Leaf × arity^exponent, of bounded settings: no product wraps.
fn power(leaf: u32, arity: u32, exponent: u32) -> u64
    requires { (leaf ≤ max_leaf) × (arity ≤ max_arity) × (exponent < max_levels) }
    ensures { result ≡ leaf * arity ^ exponent }
{
    leaf as u64 * arity_power(arity, exponent) as u64
}

// Arity^exponent by the binary digits of the exponent. As there is no loop, the compiler computes equal powers once.
fn arity_power(arity: u32, exponent: u32) -> u32
    requires { (arity ≤ max_arity) × (exponent < max_levels) }
    ensures { result ≡ arity ^ exponent }
{
    let half = exponent / 2;
    let square = arity * arity;
    factor(exponent, arity) * factor(half, square) * factor(half / 2, square * square)
}

// The factor of a power for the lowest binary digit of n: f, or 1 if the digit is 0.
fn factor(n: u32, f: u32) -> u32
    ensures { result ≡ f ^ (n % 2) }
{
    if n % 2 == 0 {
        return 1;
    }
    f
}

// Question 2.
fn sizes_fit(leaf: u32, arity: u32, levels: u32) -> bool
    ensures { result ≡ sizes_ok (sizes leaf arity levels) }
{
    if leaf < Settings::MIN_LEAF {
        return false;
    }
    if Settings::MAX_LEAF < leaf {
        return false;
    }
    if arity < Settings::MIN_ARITY {
        return false;
    }
    if Settings::MAX_ARITY < arity {
        return false;
    }
    if levels < Settings::MIN_LEVELS {
        return false;
    }
    if Settings::MAX_LEVELS < levels {
        return false;
    }
    power(leaf, arity, levels - 1) <= Settings::MAX_TEXT as u64
}

// Whether each byte is above the one before.
fn rises(s: &[u8]) -> bool
    ensures { result ≡ rising s.now }
{
    for i in 1..s.len() {
        if s[i] <= s[i - 1] {
            return false;
        }
    }
    true
}
