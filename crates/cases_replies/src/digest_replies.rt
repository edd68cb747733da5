// The answers of digest and digest_text: the refusal, and the buffer afterwards.
use crate::say;

pub fn digest(tree: &[u8], out: &mut [u8]) {
    say::result(query::digest(tree, out));
    say::held(out);
}

pub fn digest_text(text: &[u8], out: &mut [u8]) {
    say::result(sha256::digest_text(text, out));
    say::held(out);
}
