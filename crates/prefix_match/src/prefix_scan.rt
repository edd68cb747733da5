// The automaton of a prefix for the scan of `row_filter`, and the bytes that the scan passes over.
ghost use Rattle.std.specs.Prelude.{◌≡◌, ◌+◌, ◌≤◌, ◌<◌, length};
ghost use Rattle.prefix_match.specs.PrefixStates.{prefix_automaton};
ghost use Rattle.prefix_match.specs.PrefixScanned.{Passed};

use crate::prefix_state;
use crate::prefix_state::PrefixState;
use row_filter::{RowAutomaton, RowScanner, ScanStep};

// A prefix of at least one byte.
#[derive(Clone, Copy)]
pub struct Prefix<'a> {
    pub bytes: &'a [u8],
    ghost some: { 1 ≤ length bytes.now },
    ghost few: { length bytes.now < 4294967296 },
}

// The next place, from a place on, whose byte may matter: in a state that no byte but 10 changes, that of the next byte 10.
fn next_place(part: &[u8], from: usize, state: PrefixState) -> usize
    requires { from ≤ length part.now }
    ensures { (from ≤ result) × (result ≤ length part.now) × Passed part.now from state result }
{
    if prefix_state::is_open(state) {
        return from;
    }
    from + search_byte::find(part, from, part.len() - from, 10)
}

impl<'a> RowAutomaton for Prefix<'a> {
    type State = PrefixState;

    ghost automaton = { λ s. prefix_automaton s.bytes.now };

    fn start(self) -> PrefixState {
        PrefixState::Matched(0)
    }

    fn step(self, state: PrefixState, byte: u8) -> PrefixState {
        prefix_state::step(self.bytes, state, byte)
    }

    fn at_end(self, state: PrefixState) -> bool {
        prefix_state::at_end(self.bytes, state)
    }

    fn at_newline(self, state: PrefixState) -> bool {
        prefix_state::at_newline(self.bytes, state)
    }

    fn no_byte(self, state: PrefixState) -> bool {
        prefix_state::no_byte(state)
    }
}

impl<'a> RowScanner for Prefix<'a> {
    // One byte, and those after it up to the next one that may change the state.
    fn advance(self, part: &[u8], state: PrefixState, row: u32, i: usize) -> ScanStep<PrefixState> {
        match row_filter::one_byte(self, part, state, row, i) {
            ScanStep::Found(q) => ScanStep::Found(q),
            ScanStep::On(after, q, place) => ScanStep::On(after, q, next_place(part, place, after)),
        }
    }
}
