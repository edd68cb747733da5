// Rows of a text selected by a predicate on their bytes: an automaton reads a row byte by byte, and a scan finds the first row that it accepts. The
// definitions and their laws are in specs/.
#![tactic(auto)]

ghost use Rattle.std.specs.Prelude.{◌≡◌, ℕ, ◌+◌, ◌<◌, length};
ghost use Rattle.row_filter.specs.RowAutomaton.{Automaton, scan_byte, scan_bytes, RowBetween};
ghost use Rattle.row_filter.specs.RowScans.{scan_of, IsStep};

// The number of the first accepted row that ends in the scanned bytes; or else the state and the number of the row in which these bytes end. No `Result`:
// neither is an error.
#[derive(Clone, Copy)]
pub enum RowScan<S> {
    Found(u32),
    On(S, u32),
}

// The same of a step of the scan, with the place from which the scan goes on: no `Result` for the same reason.
#[derive(Clone, Copy)]
pub enum ScanStep<S> {
    Found(u32),
    On(S, u32, usize),
}

// An automaton that reads the bytes of a row.
pub trait RowAutomaton: Copy {
    type State: Copy;

    // The automaton as the definitions have it.
    ghost automaton: { Self → Automaton Self.State };

    // The state before a row's first byte.
    fn start(self) -> Self::State
        ensures { result ≡ (automaton self).start };

    // The state after one more byte.
    fn step(self, state: Self::State, byte: u8) -> Self::State
        ensures { result ≡ (automaton self).step state byte };

    // Whether the row is accepted if the text ends here.
    fn at_end(self, state: Self::State) -> bool
        ensures { result ≡ (automaton self).at_end state };

    // Whether the row is accepted if a byte 10 ends it here.
    fn at_newline(self, state: Self::State) -> bool
        ensures { result ≡ (automaton self).at_newline state };

    // Whether no byte of the row has been read.
    fn no_byte(self, state: Self::State) -> bool
        ensures { result ≡ (automaton self).no_byte state };
}

// An automaton that knows which bytes it may pass over.
pub trait RowScanner: RowAutomaton {
    // From a place on: one byte, with bytes after or in place of it that change nothing.
    fn advance(self, part: &[u8], state: Self::State, row: u32, i: usize) -> ScanStep<Self::State>
        requires { (row + 1 < 4294967296) × (i < length part.now) }
        ensures { IsStep (Self.automaton self) part.now state row i result };
}

// Scans one byte of the row with this number.
pub fn scan_byte<A: RowAutomaton>(
    automaton: A,
    state: A::State,
    row: u32,
    byte: u8,
) -> RowScan<A::State>
    requires { row + 1 < 4294967296 }
    ensures { scan_of result ≡ scan_byte (A.automaton automaton) state row byte }
{
    if byte != 10 {
        return RowScan::On(automaton.step(state, byte), row);
    }
    if automaton.at_newline(state) {
        return RowScan::Found(row);
    }
    RowScan::On(automaton.start(), row + 1)
}

// Scans the byte at a place of a part, as a step of the scan.
pub fn one_byte<A: RowAutomaton>(
    automaton: A,
    part: &[u8],
    state: A::State,
    row: u32,
    i: usize,
) -> ScanStep<A::State>
    requires { (row + 1 < 4294967296) × (i < length part.now) }
    ensures { IsStep (A.automaton automaton) part.now state row i result }
{
    match scan_byte(automaton, state, row, part[i]) {
        RowScan::Found(number) => ScanStep::Found(number),
        RowScan::On(after, number) => ScanStep::On(after, number, i + 1),
    }
}

// Scans a part of a text, from a state in the row with this number.
pub fn scan<A: RowScanner>(
    automaton: A,
    part: &[u8],
    state: A::State,
    row: u32,
) -> RowScan<A::State>
    requires { row + length part.now < 4294967296 }
    ensures { (scan_of result ≡ scan_bytes (A.automaton automaton) part.now state row)
        × (RowBetween row (length part.now) (scan_of result)) }
{
    let mut so_far = state;
    let mut q = row;
    let mut i = 0;
    // A `while`: where the scan goes on is found in the step, so there is no range to go over.
    while i < part.len() {
        match automaton.advance(part, so_far, q, i) {
            ScanStep::Found(number) => {
                return RowScan::Found(number);
            }
            ScanStep::On(after, number, place) => {
                so_far = after;
                q = number;
                i = place;
            }
        }
    }
    RowScan::On(so_far, q)
}
