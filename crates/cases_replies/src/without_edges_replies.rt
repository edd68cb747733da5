// The answer of `without_edges`.
use crate::say;

// The size of the written tree, and the buffer.
pub fn without_edges(tree: &[u8], buffer: &mut [u8]) {
    let answer = query::without_edges(tree, buffer);
    say::figures(answer.map(|size| [size as u64]));
    say::held(buffer);
}
