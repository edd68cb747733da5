// The leftmost occurrence of bytes of a text, by Karp-Rabin fingerprints: equal fingerprints only
// propose a place, and a comparison of bytes decides.
#![tactic(auto)]

mod karp_rabin;
mod scan;

ghost use Rattle.std.specs.Prelude.{◌≡◌};
ghost use Rattle.search.specs.Occurrences.{leftmost_answer, occurs_earlier_answer, usable, usable_modulus};

use text::TextPlace;

// The base and the modulus of the fingerprints.
#[derive(Clone, Copy)]
pub struct Fingerprint {
    pub base: u32,
    pub modulus: u32,
}

impl Fingerprint {
    // With this modulus, and any below, a step of the rolling window stays within 64 bits.
    pub const MAX_MODULUS: u32 = 2147483647;

    // Makes any two numbers usable: a modulus from 1 to MAX_MODULUS, and a base below it.
    pub fn new(base: u32, modulus: u32) -> Fingerprint
        ensures { result ≡ usable base modulus }
    {
        let q = usable_modulus(modulus);
        Fingerprint {
            base: base % q,
            modulus: q,
        }
    }
}

fn usable_modulus(modulus: u32) -> u32
    ensures { result ≡ usable_modulus modulus }
{
    if modulus < 1 {
        return 1;
    }
    if Fingerprint::MAX_MODULUS < modulus {
        return Fingerprint::MAX_MODULUS;
    }
    modulus
}

// The place of the leftmost occurrence of the len bytes at a place of the text; None if they extend past its end.
pub fn leftmost(text: &[u8], at: TextPlace, len: u32, by: Fingerprint) -> Option<TextPlace>
    ensures { result ≡ leftmost_answer text.now at.0 len }
{
    let start = at.0 as usize;
    let n = len as usize;
    if text.len() < start + n {
        return None;
    }
    let place = scan::scan(text, at, n, Fingerprint::new(by.base, by.modulus));
    Some(place)
}

// Whether the len bytes at a place are in the text and also occur at an earlier place.
pub fn occurs_earlier(text: &[u8], at: TextPlace, len: u32, by: Fingerprint) -> bool
    ensures { result ≡ occurs_earlier_answer text.now at.0 len }
{
    let start = at.0;
    leftmost(text, at, len, by).is_some_and(|found| found.0 < start)
}
