// The answers of the calls on columns.
use crate::say;

// A text rearranged by columns, or back: the refusal, and the output.
pub fn to_columns(text: &[u8], width: u32, out: &mut [u8]) {
    say::result(columns::to_columns(text, width, out));
    say::held(out);
}

pub fn from_columns(text: &[u8], width: u32, out: &mut [u8]) {
    say::result(columns::from_columns(text, width, out));
    say::held(out);
}

// A row read by columns: the refusal, the bytes copied, and the buffer.
pub fn row(tree: &[u8], width: u32, a: u32, buffer: &mut [u8]) {
    let answer = query::row_by_columns(tree, width, a, buffer);
    say::figures(answer.map(|(copied, _)| [u64::from(copied)]));
    say::held(buffer);
}
