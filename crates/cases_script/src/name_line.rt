// The line that names some bytes.
ghost use Rattle.std.specs.Prelude.{◌≡◌, ◌≤◌, length, drop};
ghost use Rattle.cases_tokens.specs.Parts.{front};
ghost use Rattle.cases_script.specs.NameLine.{gives_bytes, gives_name, giving_line};

use crate::line_words::input_number;

// Whether a line names bytes.
pub fn gives_bytes(line: &[u8]) -> bool
    ensures { result ≡ gives_bytes line.now }
{
    input_number(line) < 4
}

// Whether the line that starts at `at` names bytes by this name.
fn gives(s: &[u8], at: usize, name: &[u8]) -> bool
    requires { at ≤ length s.now }
    ensures { result ≡ gives_name (front 10 (drop at s.now)) name.now }
{
    let line = cases_tokens::until(s, at, 10);
    if !check::same(cases_tokens::token(line, 1), name) {
        return false;
    }
    gives_bytes(line)
}

// The first line with this name; empty if there is none.
pub fn giving<'a>(s: &'a [u8], name: &[u8]) -> &'a [u8]
    ensures { result.now ≡ giving_line s.now name.now }
{
    let mut at: usize = 0;
    // A `while`: a line starts where the one before it ends, and `past` finds that place in the body.
    while at < s.len() {
        if gives(s, at, name) {
            return cases_tokens::until(s, at, 10);
        }
        at = cases_tokens::past(s, at, 10);
    }
    &s[0..0]
}
