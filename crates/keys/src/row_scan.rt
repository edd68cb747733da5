// The automaton of a worn key, and the rows that it passes over: those that cannot match by their last bytes.
ghost use Rattle.std.specs.Prelude.{◌≡◌, ◌+◌, ◌*◌, ◌/◌, ◌≤◌, ◌<◌, length};
ghost use Rattle.keys.specs.KeyStates.{key_automaton};
ghost use Rattle.keys.specs.RowScanned.{BytesEnd, CutsFit, MayMatch, RowPassed};

use crate::key_state;
use crate::key_state::KeyState;
use crate::ranges::Ranges;
use row_filter::{RowAutomaton, RowScanner, ScanStep};

// The end of a row's bytes, where a newline is at `end`: a carriage return directly before the newline is none of them.
fn bytes_end(part: &[u8], from: usize, end: usize) -> usize
    requires { (from ≤ end) × (end ≤ length part.now) }
    ensures { BytesEnd part.now from end result }
{
    if end == from {
        return end;
    }
    if part[end - 1] == 13 {
        return end - 1;
    }
    end
}

// Whether the bytes at a place may be all cuts.
fn cuts_fit(ranges: &[u8], part: &[u8], at: usize) -> bool
    requires { at + length ranges.now / 2 ≤ length part.now }
    ensures { CutsFit ranges.now part.now at result }
{
    let end = at + ranges.len() / 2;
    for (k, byte) in part[at..end].iter().enumerate() {
        if !key_state::cut_fits(ranges, k, *byte) {
            return false;
        }
    }
    true
}

// Whether the row up to a newline may match, by its last bytes alone: its code is not read.
fn may_match(ranges: &[u8], part: &[u8], from: usize, end: usize) -> bool
    requires { (from ≤ end) × (end ≤ length part.now) }
    ensures { MayMatch ranges.now part.now from end result }
{
    let cuts = ranges.len() / 2;
    let last = bytes_end(part, from, end);
    if last - from < cuts + 2 {
        return false;
    }
    cuts_fit(ranges, part, last - cuts)
}

// The place after the row that begins at a place, if a newline of the part ends it and it cannot match; else the same place.
fn past_row(ranges: &[u8], part: &[u8], from: usize) -> usize
    requires { from ≤ length part.now }
    ensures { RowPassed ranges.now part.now from result }
{
    let n = part.len() - from;
    let k = search_byte::find(part, from, n, 10);
    if n <= k {
        return from;
    }
    if may_match(ranges, part, from, from + k) {
        return from;
    }
    from + k + 1
}

impl<'a> RowAutomaton for Ranges<'a> {
    type State = KeyState;

    ghost automaton = { λ s. key_automaton s.bytes.now };

    fn start(self) -> KeyState {
        KeyState::Code(0)
    }

    fn step(self, state: KeyState, byte: u8) -> KeyState {
        key_state::step(self.bytes, state, byte)
    }

    fn at_end(self, state: KeyState) -> bool {
        key_state::matches_at_end(self.bytes, state)
    }

    fn at_newline(self, state: KeyState) -> bool {
        key_state::matches_at_newline(self.bytes, state)
    }

    fn no_byte(self, state: KeyState) -> bool {
        key_state::is_empty(state)
    }
}

impl<'a> RowScanner for Ranges<'a> {
    // At a row's first byte a whole row that cannot match, else one byte.
    fn advance(self, part: &[u8], state: KeyState, row: u32, i: usize) -> ScanStep<KeyState> {
        if key_state::is_empty(state) {
            let past = past_row(self.bytes, part, i);
            if i < past {
                return ScanStep::On(KeyState::Code(0), row + 1, past);
            }
        }
        row_filter::one_byte(self, part, state, row, i)
    }
}
