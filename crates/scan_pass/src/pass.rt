// The pass over the text.
ghost use Rattle.std.specs.Prelude.{◌≡◌, ◌+◌, ◌≤◌, ◌<◌, length, get_or};
ghost use Rattle.scan_rolling_hash.specs.Windows.{WindowAt, places_of};
ghost use Rattle.scan_pass.specs.Passes.{Asked, Stepped, SteppedTwice, CutWindowsAt, Covers, Passed, EnteredItems, Ordered};

use crate::Lengths;
use scan_hash_table::{Items, Probe, lookup};
use scan_rolling_hash::{ByteAt, Window};
use text::TextPlace;

// The windows of the two lengths that the end of the text cuts: of a short block, and of a pair with a short block.
#[derive(Clone, Copy)]
pub struct CutWindows {
    pub last: Window,
    pub ending: Window,
    pub places: u32,
}

// The window of n bytes at the start of the text, looked up there if it fits.
fn first(words: &mut [u32], text: &[u8], out: &[u8], it: Items, n: u32) -> Window
    requires { Asked text.now out.now it words.old × (n ≤ length text.now) }
    ensures window_at { WindowAt it.seed text.now n 0 result }
    ensures stepped { Stepped text.now out.now it words.old words.new n 0 }
{
    let w = scan_rolling_hash::first_window(it.seed, text, n);
    if w.places == 0 {
        return w;
    }
    let start = Probe {
        fingerprint: w.fingerprint,
        start: TextPlace(0),
        length: n,
    };
    lookup::look_up(words, text, out, it, start);
    w
}

// Moves a window by one place if it fits there, and looks it up. It moves first, so the next place is compared with the number of places only once.
fn step(words: &mut [u32], text: &[u8], out: &[u8], it: Items, w: Window, here: ByteAt) -> Window
    requires { Asked text.now out.now it words.old × WindowAt it.seed text.now w.len here.place.0 w
        × (here.place.0 < length text.now) × (here.byte ≡ get_or text.now here.place.0 0) }
    ensures window_at { WindowAt it.seed text.now w.len (here.place.0 + 1) result }
    ensures stepped { Stepped text.now out.now it words.old words.new w.len (here.place.0 + 1) }
{
    let p = here.place.0 + 1;
    if w.places <= p {
        return w;
    }
    let next = scan_rolling_hash::next_window(it.seed, text, w, here);
    let probe = Probe {
        fingerprint: next.fingerprint,
        start: TextPlace(p),
        length: w.len,
    };
    lookup::look_up(words, text, out, it, probe);
    next
}

// Both windows of cut lengths, and the larger of their numbers of places: from there on one comparison skips both.
fn cut_windows(last: Window, ending: Window) -> CutWindows
    ensures { (result.last ≡ last) × (result.ending ≡ ending) × (last.places ≤ result.places) × (ending.places ≤ result.places) }
{
    if last.places < ending.places {
        return CutWindows {
            last,
            ending,
            places: ending.places,
        };
    }
    CutWindows {
        last,
        ending,
        places: last.places,
    }
}

// Moves both windows of cut lengths and looks them up.
fn step_cut(
    words: &mut [u32],
    text: &[u8],
    out: &[u8],
    it: Items,
    cut: CutWindows,
    here: ByteAt,
) -> CutWindows
    requires { Asked text.now out.now it words.old
        × CutWindowsAt it.seed text.now cut.last.len cut.ending.len here.place.0 cut
        × (here.place.0 < length text.now) × (here.byte ≡ get_or text.now here.place.0 0) }
    ensures cut_windows_at { CutWindowsAt it.seed text.now cut.last.len cut.ending.len (here.place.0 + 1) result }
    ensures stepped_twice { SteppedTwice text.now out.now it words.old words.new
        cut.last.len cut.ending.len (here.place.0 + 1) }
{
    if cut.places <= here.place.0 + 1 {
        return cut;
    }
    let last = step(words, text, out, it, cut.last, here);
    let ending = step(words, text, out, it, cut.ending, here);
    CutWindows {
        last,
        ending,
        places: cut.places,
    }
}

// Passes once over the text with a window of each length. Returns the number of windows looked up.
pub fn pass(words: &mut [u32], text: &[u8], out: &[u8], it: Items, l: Lengths) -> u32
    requires { EnteredItems text.now out.now it words.old it.items × Covers text.now out.now it words.old l
        × Ordered text.now out.now it }
    ensures passed { Passed text.now out.now it words.old words.new }
    ensures value { result ≡ places_of (length text.now) l.block + places_of (length text.now) l.pair
        + places_of (length text.now) l.last + places_of (length text.now) l.ending }
{
    let mut a = first(words, text, out, it, l.block);
    let mut b = first(words, text, out, it, l.pair);
    let last = first(words, text, out, it, l.last);
    let ending = first(words, text, out, it, l.ending);
    let mut cut = cut_windows(last, ending);
    for (p, byte) in text.iter().enumerate() {
        let place = TextPlace(p as u32);
        let here = ByteAt { place, byte: *byte };
        a = step(words, text, out, it, a, here);
        b = step(words, text, out, it, b, here);
        cut = step_cut(words, text, out, it, cut, here);
    }
    a.looked + b.looked + cut.last.looked + cut.ending.looked
}
