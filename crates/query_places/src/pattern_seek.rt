// One pass over the text by ranges, each a part of the bytes of the tree.
ghost use Rattle.std.specs.Prelude.{cond, List, ◌≡◌, ℕ, ◌+◌, ◌-◌, ◌≤◌, ◌<◌, length, set, ltb};
ghost use Rattle.layout.specs.HeaderFields.{HeaderOf};
ghost use Rattle.query_access.specs.ReadByRuns.{ReadsOn};
ghost use Rattle.search_kmp.specs.Borders.{Borders};
ghost use Rattle.query_places.specs.TableFilled.{Stepped, Skips, ReadsMatching, Seeking, Even, SeekAnswer};

use layout::header::Header;
use layout::place::TextPlace;
use query_access::read_by_header;
use query_access::read_by_header::TreeRange;

// The largest number of bytes that are read at once.
const MOST: u32 = 65536;

// How far the text was read: the next place, the state of the automaton there, and the number of places found.
#[derive(Clone, Copy)]
pub struct Progress {
    pub place: TextPlace,
    pub state: usize,
    pub found: u32,
}

// A range of the bytes of the tree to be read, and how far the text was read before it.
#[derive(Clone, Copy)]
struct Unread {
    part: TreeRange,
    before: Progress,
}

// Writes a place that was found, if it is among the first `room`.
fn note(table: &mut [u32], room: u32, found: u32, place: TextPlace)
    requires { room ≤ length table.old }
    ensures { table.new ≡ cond (ltb found room) (set table.old found place.0) table.old }
{
    if found < room {
        table[found as usize] = place.0;
    }
}

// Reads one byte.
fn step(
    pattern: &[u8],
    borders: &[u8],
    byte: u8,
    m: Progress,
    room: u32,
    table: &mut [u32],
) -> Progress
    requires even { (Even pattern.now m) × (m.place.0 + 1 < 4294967296) × (room ≤ length table.old) }
    requires pattern_in_bounds { (length pattern.now ≤ length borders.now) × Borders pattern.now borders.now (length pattern.now) }
    ensures { Stepped pattern.now byte room m table.old result table.new }
{
    let state = search_kmp::advance(pattern, borders, m.state, byte);
    let next = m.place.0 + 1;
    if state != pattern.len() {
        return Progress {
            place: TextPlace(next),
            state,
            found: m.found,
        };
    }
    note(table, room, m.found, TextPlace(next - pattern.len() as u32));
    Progress {
        place: TextPlace(next),
        state,
        found: m.found + 1,
    }
}

// The number of bytes that can be skipped of the n at a place: in state 0 those before the first byte of the pattern.
fn skip(t: &[u8], from: usize, n: usize, pattern: &[u8], state: usize) -> usize
    requires { (from + n ≤ length t.now) × (1 ≤ length pattern.now) }
    ensures { (result ≤ n) × Skips pattern.now t.now from state result }
{
    if 0 < state {
        return 0;
    }
    search_byte::find(t, from, n, pattern[0])
}

// Reads on by at most n bytes, as long as each byte continues the pattern and none completes it.
fn read_matching(t: &[u8], from: usize, n: usize, pattern: &[u8], m: Progress) -> Progress
    requires { (ReadsOn t.now m.place.0 from n) × (m.place.0 + n < 4294967296) × (Even pattern.now m)
        × (1 ≤ length pattern.now) × (length pattern.now ≤ 256) }
    ensures { ReadsMatching t.now pattern.now n m result }
{
    let k = skip(t, from, n, pattern, m.state);
    let d = search_kmp::matching(t, from + k, n - k, pattern, m.state);
    Progress {
        place: TextPlace(m.place.0 + (k + d) as u32),
        state: m.state + d,
        found: m.found,
    }
}

// Reads the bytes of a range.
fn feed(
    t: &[u8],
    run: Unread,
    pattern: &[u8],
    borders: &[u8],
    room: u32,
    table: &mut [u32],
) -> Progress
    requires reads_on { (ReadsOn t.now run.before.place.0 run.part.from run.part.length) × (run.before.place.0 + run.part.length < 4294967296)
        × (Even pattern.now run.before) × (room ≤ length table.old) }
    requires in_bounds { (1 ≤ length pattern.now) × (length pattern.now ≤ 256) × (length pattern.now ≤ length borders.now)
        × Borders pattern.now borders.now (length pattern.now) }
    ensures { (result.place.0 ≡ run.before.place.0 + run.part.length)
        × ((before : List ℕ) → Seeking t.now pattern.now room before run.before table.old
        → Seeking t.now pattern.now room before result table.new) }
{
    let from = run.part.from;
    let size = run.part.length;
    let start = run.before.place.0;
    let mut at = run.before;
    let mut i: usize = 0;
    // A `while`: how many bytes a step passes is found in its body, so there is no range to go over.
    while i < size {
        at = read_matching(t, from + i, size - i, pattern, at);
        i = (at.place.0 - start) as usize;
        if size <= i {
            return at;
        }
        at = step(pattern, borders, t[from + i], at, room, table);
        i += 1;
    }
    at
}

// Reads the whole text; writes the first `room` places to the table. The number of places, none if a path breaks.
pub fn seek(
    t: &[u8],
    h: Header,
    pattern: &[u8],
    borders: &[u8],
    room: u32,
    table: &mut [u32],
) -> Option<u32>
    requires header_of { (HeaderOf t.now h) × (1 ≤ length pattern.now) × (room ≤ length table.old) }
    requires pattern_len_bound { (length pattern.now ≤ 256) × (length pattern.now ≤ length borders.now) × Borders pattern.now borders.now (length pattern.now) }
    ensures { SeekAnswer t.now pattern.now room table.old result table.new }
{
    let mut m = Progress {
        place: TextPlace(0),
        state: 0,
        found: 0,
    };
    // A `while`: each part's length is found when it is read, so there is no range to go over.
    while m.place.0 < h.text_length {
        let range = read_by_header::range_at(t, h, m.place, MOST);
        let Ok(part) = range else {
            return None;
        };
        m = feed(t, Unread { part, before: m }, pattern, borders, room, table);
    }
    Some(m.found)
}
