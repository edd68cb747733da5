// The answers of the calls on guides.
use crate::say;
use layout::word;

// The number of words of the guide, and the words of the table, `-` if it has none.
pub fn make(tree: &[u8], table: &mut [u8]) {
    let answer = query::make_guide(tree, table);
    say::figures(answer.map(|words| [words]));
    io::write_all(1, b" ");
    if table.len() == 0 {
        io::write_all(1, b"-");
    }
    words(table);
}

pub fn check(tree: &[u8], guide: &[u8]) {
    say::result(query::check_guide(tree, guide));
}

// The place, the blocks entered, and the steps on level 0.
pub fn find(tree: &[u8], guide: &[u8], byte: u8, j: u32) {
    let answer = query::find_guided(tree, guide, byte, j);
    say::figures(answer.map(|(place, entered, steps)| [
        u64::from(place.0),
        u64::from(entered),
        u64::from(steps),
    ]));
}

// Bytes as words, in decimal, separated by commas.
fn words(bytes: &[u8]) {
    for (i, entry) in bytes.chunks_exact(4).enumerate() {
        say::word(i, word::read(entry, 0));
    }
}
