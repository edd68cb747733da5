// Fingerprints of bytes, and of a window that rolls over them.
ghost use Rattle.std.specs.Prelude.{◌≡◌, ◌+◌, ◌-◌, ◌*◌, ◌%◌, ◌^◌, ◌≤◌, ◌<◌, length};
ghost use Rattle.text.specs.Text.{substring};
ghost use Rattle.search.specs.FingerValues.{ReducedBase, finger};

use crate::Fingerprint;
use text::TextPlace;

// The fingerprint of bytes with one byte more at their end.
fn push(by: Fingerprint, h: u64, enters: u8) -> u64
    requires { (ReducedBase by.base by.modulus) × (h < by.modulus) }
    ensures { result ≡ (h * by.base + enters) % by.modulus }
{
    (h * by.base as u64 + enters as u64) % by.modulus as u64
}

// The fingerprint of a window moved on by one byte; `top` is the window's power of the base.
pub fn roll(by: Fingerprint, h: u64, top: u64, leaves: u8, enters: u8) -> u64
    requires { (ReducedBase by.base by.modulus) × (h < by.modulus) × (top < by.modulus) }
    ensures { result ≡ (h * by.base + enters + (255 * by.modulus - top * leaves)) % by.modulus }
{
    let q = by.modulus as u64;
    (h * by.base as u64 + enters as u64 + (255 * q - top * leaves as u64)) % q
}

// The n-th power of the base.
pub fn power(by: Fingerprint, n: usize) -> u64
    requires { ReducedBase by.base by.modulus }
    ensures { result ≡ by.base ^ n % by.modulus }
{
    let b = by.base as u64;
    let q = by.modulus as u64;
    let mut w = 1 % q;
    for _ in 0..n {
        w = w * b % q;
    }
    w
}

pub fn fingerprint(by: Fingerprint, s: &[u8]) -> u64
    requires { ReducedBase by.base by.modulus }
    ensures { result ≡ finger by.base by.modulus s.now }
{
    let mut h = 0;
    for x in s {
        h = push(by, h, *x);
    }
    h
}

// The fingerprint of the n bytes at p.
pub fn fingerprint_at(by: Fingerprint, text: &[u8], p: TextPlace, n: usize) -> u64
    requires { (ReducedBase by.base by.modulus) × (p.0 + n ≤ length text.now) }
    ensures { result ≡ finger by.base by.modulus (substring text.now p.0 n) }
{
    let from = p.0 as usize;
    let end = from + n;
    fingerprint(by, &text[from..end])
}
