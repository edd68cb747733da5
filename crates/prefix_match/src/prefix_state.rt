// The states of the automaton that recognizes rows starting with a prefix.
ghost use Rattle.std.specs.Prelude.{◌≡◌, ◌≤◌, ◌<◌, length};
ghost use Rattle.prefix_match.specs.PrefixStates.{prefix_step, after_matched, prefix_at_end, prefix_at_newline, ends_without_cr, no_byte_read, is_open};

// The state after some bytes of a row.
#[derive(Clone, Copy)]
pub enum PrefixState {
    // This many bytes, all equal to those of the prefix.
    Matched(u32),
    // More bytes than the prefix has; the first of them are the prefix.
    Longer,
    // Some byte differs from the prefix.
    Mismatch,
}

// One more byte.
pub fn step(prefix: &[u8], state: PrefixState, byte: u8) -> PrefixState
    requires { length prefix.now < 4294967296 }
    ensures { result ≡ prefix_step prefix.now state byte }
{
    match state {
        PrefixState::Matched(k) => after_matched(prefix, k, byte),
        PrefixState::Longer => PrefixState::Longer,
        PrefixState::Mismatch => PrefixState::Mismatch,
    }
}

// One more byte after k equal bytes.
fn after_matched(prefix: &[u8], k: u32, byte: u8) -> PrefixState
    requires { length prefix.now < 4294967296 }
    ensures { result ≡ after_matched prefix.now k byte }
{
    let at = k as usize;
    if prefix.len() <= at {
        return PrefixState::Longer;
    }
    if prefix[at] == byte {
        return PrefixState::Matched(k + 1);
    }
    PrefixState::Mismatch
}

// Whether a row starts with the prefix if the text ends here.
pub fn at_end(prefix: &[u8], state: PrefixState) -> bool
    ensures { result ≡ prefix_at_end prefix.now state }
{
    match state {
        PrefixState::Matched(k) => prefix.len() <= k as usize,
        PrefixState::Longer => true,
        PrefixState::Mismatch => false,
    }
}

// Whether a row starts with the prefix if a byte 10 ends it here. A byte 13 before that byte is not part of the row.
pub fn at_newline(prefix: &[u8], state: PrefixState) -> bool
    requires { 1 ≤ length prefix.now }
    ensures { result ≡ prefix_at_newline prefix.now state }
{
    match state {
        PrefixState::Matched(k) => ends_without_cr(prefix, k),
        PrefixState::Longer => true,
        PrefixState::Mismatch => false,
    }
}

// The whole prefix was read, and its last byte is not 13.
fn ends_without_cr(prefix: &[u8], k: u32) -> bool
    requires { 1 ≤ length prefix.now }
    ensures { result ≡ ends_without_cr prefix.now k }
{
    if (k as usize) < prefix.len() {
        return false;
    }
    let last = prefix.len() - 1;
    prefix[last] != 13
}

// Whether no byte of the row has been read.
pub fn no_byte(state: PrefixState) -> bool
    ensures { result ≡ no_byte_read state }
{
    match state {
        PrefixState::Matched(k) => k == 0,
        PrefixState::Longer => false,
        PrefixState::Mismatch => false,
    }
}

// Whether a byte other than 10 may change the state.
pub fn is_open(state: PrefixState) -> bool
    ensures { result ≡ is_open state }
{
    match state {
        PrefixState::Matched(_) => true,
        PrefixState::Longer => false,
        PrefixState::Mismatch => false,
    }
}
