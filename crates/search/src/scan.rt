// The search: one pass over the text up to the place.
ghost use Rattle.std.specs.Prelude.{◌≡◌, ◌+◌, ◌≤◌, ◌<◌, length};
ghost use Rattle.text.specs.Text.{same_list, substring, leftmost};
ghost use Rattle.search.specs.FingerValues.{ReducedBase, finger};

use crate::{Fingerprint, karp_rabin};
use text::TextPlace;

// A place of the text, and the fingerprint of the bytes there.
#[derive(Clone, Copy)]
struct WindowFingerprint {
    start: TextPlace,
    fingerprint: u64,
}

// Whether the same n bytes are at two places. Equal fingerprints only propose; a comparison of the bytes decides.
fn occurs_at(
    text: &[u8],
    here: WindowFingerprint,
    wanted: WindowFingerprint,
    n: usize,
    by: Fingerprint,
) -> bool
    requires n_in_bounds { (here.start.0 + n ≤ length text.now) × (wanted.start.0 + n ≤ length text.now) }
    requires fingerprint_value { here.fingerprint ≡ finger by.base by.modulus (substring text.now here.start.0 n) }
    requires fingerprint_value_2 { wanted.fingerprint ≡ finger by.base by.modulus (substring text.now wanted.start.0 n) }
    ensures { result ≡ same_list (substring text.now here.start.0 n) (substring text.now wanted.start.0 n) }
{
    if here.fingerprint != wanted.fingerprint {
        return false;
    }
    byte_slices::equal_at(text, here.start.0 as usize, wanted.start.0 as usize, n)
}

// The first place with the n bytes at `at`.
pub fn scan(text: &[u8], at: TextPlace, n: usize, by: Fingerprint) -> TextPlace
    requires { (at.0 + n ≤ length text.now) × (ReducedBase by.base by.modulus) }
    ensures { result.0 ≡ leftmost text.now at.0 n }
{
    let top = karp_rabin::power(by, n);
    let wanted = WindowFingerprint {
        start: at,
        fingerprint: karp_rabin::fingerprint_at(by, text, at, n),
    };
    let mut h = karp_rabin::fingerprint_at(by, text, TextPlace(0), n);
    for p in 0..at.0 {
        let here = WindowFingerprint {
            start: TextPlace(p),
            fingerprint: h,
        };
        if occurs_at(text, here, wanted, n, by) {
            return TextPlace(p);
        }
        h = karp_rabin::roll(by, h, top, text[p as usize], text[p as usize + n]);
    }
    at
}
