// The newline that ends a row, read from the start of the row run by run, in a tree that passes questions 5 to 7.
ghost use Rattle.std.specs.Prelude.{cond, ◌≡◌, ◌+◌, ◌-◌, ◌≤◌, eqb, length, get_or};
ghost use Rattle.layout.specs.HeaderFields.{HeaderOf};
ghost use Rattle.query_rows.specs.RowEnds.{NewlineIs};

use layout::header::Header;
use layout::place::TextPlace;
use query_access::read_by_header;
use query_access::read_by_header::LeafRun;

// The most bytes that are read at once: few rows are longer.
const MOST: u32 = 32;

// The place of the first newline from a place on, the byte before it, if one was read, and the range that was read first; or none, because a path
// breaks or the text ends before it. The ranges are read in place.
pub fn next_newline(t: &&[u8], h: Header, from: TextPlace) -> Option<(TextPlace, u8, LeafRun)>
    requires { (HeaderOf t.now.now h) × (from.0 ≤ h.text_length) }
    ensures { NewlineIs t.now.now from.0 result }
{
    let tree = *t;
    let mut at: u32 = from.0;
    let mut earlier: u8 = 0;
    let mut first = read_by_header::no_run();
    // A `while`: each part's length is found when it is read, so there is no range to go over.
    while at < h.text_length {
        let found = read_by_header::leaf_range(t, h, TextPlace(at), MOST);
        let Some(part) = found else {
            return None;
        };
        let size = part.length;
        let i = byte_slices::find_nth(tree, part.from, size, 10, 1);
        let before = byte_before(tree, part.from, i, earlier);
        first = first_of(first, part);
        if i < size {
            return Some((TextPlace(at + i), before, first));
        }
        earlier = before;
        at += size;
    }
    None
}

// The range that was read first: the one before, if there is one.
fn first_of(first: LeafRun, next: LeafRun) -> LeafRun
    ensures { result ≡ cond (eqb first.length 0) next first }
{
    if first.length != 0 {
        return first;
    }
    next
}

// The byte before place i of a range: for the first place the one that was read before the range.
fn byte_before(t: &[u8], from: usize, i: u32, earlier: u8) -> u8
    requires { from + i ≤ length t.now }
    ensures { result ≡ cond (eqb i 0) earlier (get_or t.now (from + (i - 1)) 0) }
{
    if i == 0 {
        return earlier;
    }
    t[from + (i - 1) as usize]
}
