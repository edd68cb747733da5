// The list program: standard input is checked as a tree; for each level a line with level, blocks, kept and pointing blocks, or the
// number of the question that refuses the input.
#![tactic(auto)]

// One byte more than the longest tree.
const ROOM: usize = list_lines::MAX_INPUT + 1;

// Reads standard input, one byte more than the longest tree at the most, and prints.
pub fn run() {
    let mut input = [0u8; ROOM];
    let n = io::read_full(0, &mut input);
    let mut out = [0u8; list_lines::MAX_LINES];
    let size = list_lines::print(&input[..n], &mut out);
    io::write_all(1, &out[..size]);
}
