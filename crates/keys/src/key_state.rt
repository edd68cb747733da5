// The state of a row while it is read: a code, a space, and cuts, byte by byte.
ghost use Rattle.std.specs.Prelude.{◌≡◌, ◌*◌, ◌/◌, ◌≤◌, ◌<◌, length};
ghost use Rattle.keys.specs.KeyStates.{step_of, in_code, cut_fits, in_cuts, is_whole, is_done, is_none};
ghost use Rattle.keys.specs.Keys.{max_cuts};

// The most bytes of a code.
const MAX_CODE: u32 = 12;

// How far the bytes read so far are the beginning of a key that can match.
#[derive(Clone, Copy)]
pub enum KeyState {
    // This many bytes of the code, and no space yet.
    Code(u32),
    // The code, the space, and this many cuts, each in its range.
    Cuts(u32),
    // All cuts, then one byte 13.
    Ended,
    // No match, whatever follows.
    Wrong,
}

// The state after one more byte.
pub fn step(ranges: &[u8], form: KeyState, byte: u8) -> KeyState
    requires { length ranges.now ≤ 2 * max_cuts }
    ensures { result ≡ step_of ranges.now form byte }
{
    match form {
        KeyState::Code(k) => in_code(k, byte),
        KeyState::Cuts(i) => in_cuts(ranges, i, byte),
        KeyState::Ended => KeyState::Wrong,
        KeyState::Wrong => KeyState::Wrong,
    }
}

// The state after one more byte, where k bytes of the code were read.
fn in_code(k: u32, byte: u8) -> KeyState
    ensures { result ≡ in_code k byte }
{
    if byte == 32 {
        if k == 0 {
            return KeyState::Wrong;
        }
        return KeyState::Cuts(0);
    }
    if MAX_CODE <= k {
        return KeyState::Wrong;
    }
    KeyState::Code(k + 1)
}

// The state after one more byte, where i cuts were read.
fn in_cuts(ranges: &[u8], i: u32, byte: u8) -> KeyState
    requires { length ranges.now ≤ 2 * max_cuts }
    ensures { result ≡ in_cuts ranges.now i byte }
{
    let at = i as usize;
    if ranges.len() / 2 <= at {
        if byte == 13 {
            return KeyState::Ended;
        }
        return KeyState::Wrong;
    }
    if cut_fits(ranges, at, byte) {
        return KeyState::Cuts(i + 1);
    }
    KeyState::Wrong
}

// Whether a byte is a digit in the range of a cut.
pub fn cut_fits(ranges: &[u8], at: usize, byte: u8) -> bool
    requires { at < length ranges.now / 2 }
    ensures { result ≡ cut_fits ranges.now at byte }
{
    let depth = wide(byte);
    if depth < 48 + wide(ranges[2 * at]) {
        return false;
    }
    if 48 + wide(ranges[2 * at + 1]) < depth {
        return false;
    }
    true
}

fn wide(b: u8) -> u32
    ensures { (result ≡ b) × (result < 256) }
{
    b as u32
}

// Whether a row matches if the text ends here.
pub fn matches_at_end(ranges: &[u8], form: KeyState) -> bool
    ensures { result ≡ is_whole ranges.now form }
{
    match form {
        KeyState::Code(_) => false,
        KeyState::Cuts(i) => i as usize == ranges.len() / 2,
        KeyState::Ended => false,
        KeyState::Wrong => false,
    }
}

// Whether a row matches if a byte 10 ends it here.
pub fn matches_at_newline(ranges: &[u8], form: KeyState) -> bool
    ensures { result ≡ is_done ranges.now form }
{
    match form {
        KeyState::Code(_) => false,
        KeyState::Cuts(i) => i as usize == ranges.len() / 2,
        KeyState::Ended => true,
        KeyState::Wrong => false,
    }
}

// Whether no byte of the row was read.
pub fn is_empty(form: KeyState) -> bool
    ensures { result ≡ is_none form }
{
    match form {
        KeyState::Code(k) => k == 0,
        KeyState::Cuts(_) => false,
        KeyState::Ended => false,
        KeyState::Wrong => false,
    }
}
