// Parts of a slice: a line has the bytes before the next byte 10, a token those before the next byte 32.
ghost use Rattle.std.specs.Prelude.{◌≡◌, ◌+◌, ◌≤◌, length, drop, position, eqb};
ghost use Rattle.cases_tokens.specs.Parts.{place_of_stop, front, Past, Start, after, token_of};

// The place of the first byte `stop`.
fn first(s: &[u8], stop: u8) -> Option<usize>
    ensures { result ≡ position (λ b. eqb b stop) s.now }
{
    s.iter().position(|b| *b == stop)
}

// The place of the next byte `stop` from `at` on, or the end.
fn find(s: &[u8], at: usize, stop: u8) -> usize
    requires { at ≤ length s.now }
    ensures value { result ≡ at + place_of_stop stop (drop at s.now) }
    ensures upper_bound { result ≤ length s.now }
{
    match first(&s[at..], stop) {
        Some(k) => at + k,
        None => s.len(),
    }
}

// The bytes from `at` on before the next byte `stop`, or to the end.
pub fn until(s: &[u8], at: usize, stop: u8) -> &[u8]
    requires { at ≤ length s.now }
    ensures { result.now ≡ front stop (drop at s.now) }
{
    let end = find(s, at, stop);
    &s[at..end]
}

// The place after the next byte `stop`, or the end.
pub fn past(s: &[u8], at: usize, stop: u8) -> usize
    requires { at ≤ length s.now }
    ensures { Past s.now at stop result }
{
    let end = find(s, at, stop);
    if end < s.len() {
        return end + 1;
    }
    end
}

// Token k of a line, from 0; empty if there are fewer.
pub fn token(line: &[u8], k: u32) -> &[u8]
    ensures { result.now ≡ token_of line.now k }
{
    let at = start(line, k);
    until(line, at, 32)
}

// Where token k starts; the line's end if there are fewer.
fn start(line: &[u8], k: u32) -> usize
    ensures { Start line.now k result }
{
    let mut at: usize = 0;
    for _ in 0..k {
        at = past(line, at, 32);
    }
    at
}

// Whether a line has no more than k tokens.
pub fn ends(line: &[u8], k: u32) -> bool
    ensures { result ≡ eqb (length (after line.now k)) 0 }
{
    start(line, k) == line.len()
}
