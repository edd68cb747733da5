// The bytes that lines give, written to the start of a buffer; what is returned is their number, or why there are none.
ghost use Rattle.std.specs.Prelude.{◌≡◌, ◌≤◌, ◌<◌, ◌%◌, length, get_or, take, replicate};
ghost use Rattle.text.specs.Text.{tabulate};
ghost use Rattle.cases_script.specs.GivenBytes.{Gives, times_over, repeat_given, plain_given, pad_to, pad_given, make_given, named_given};
ghost use Rattle.cases_script.specs.GivenBytes.Given.{bytes};

use crate::line_words::{InputKind, input_kind};
use crate::name_line::giving;
use cases_tokens::hexadecimal::Fault;

// The bytes that have a name in the lines of a script.
pub fn named(script: &[u8], name: &[u8], out: &mut [u8]) -> Result<usize, Fault>
    ensures { Gives out.new result (named_given script.now name.now (length out.old)) }
{
    make(script, giving(script, name), out)
}

// The bytes that a line gives; the script has the lines that it may name.
pub fn make(script: &[u8], line: &[u8], out: &mut [u8]) -> Result<usize, Fault>
    ensures { Gives out.new result (make_given script.now line.now (length out.old)) }
{
    let kind = input_kind(line);
    match kind {
        InputKind::Text => plain(line, out),
        InputKind::Repeat => plain(line, out),
        InputKind::Tree => plain(line, out),
        InputKind::Pad => pad(script, line, out),
        InputKind::Nothing => plain(line, out),
    }
}

// The bytes that a line gives by itself: text and tree, in hexadecimal, and repeat.
fn plain(line: &[u8], out: &mut [u8]) -> Result<usize, Fault>
    ensures { Gives out.new result (plain_given line.now (length out.old)) }
{
    let kind = input_kind(line);
    match kind {
        InputKind::Text => cases_tokens::hex(cases_tokens::token(line, 2), out),
        InputKind::Repeat => repeat(line, out),
        InputKind::Tree => cases_tokens::hex(cases_tokens::token(line, 2), out),
        InputKind::Pad => Err(Fault::Name),
        InputKind::Nothing => Err(Fault::Name),
    }
}

// Bytes in hexadecimal, repeated.
fn repeat(line: &[u8], out: &mut [u8]) -> Result<usize, Fault>
    ensures { Gives out.new result (repeat_given line.now (length out.old)) }
{
    if !cases_tokens::figures(line, 3, 4) {
        return Err(Fault::Number);
    }
    let k = cases_tokens::hex(cases_tokens::token(line, 2), out)?;
    times_over(out, k, cases_tokens::figure(line, 3))
}

// The first k bytes, repeated.
fn times_over(out: &mut [u8], k: usize, times: u32) -> Result<usize, Fault>
    requires { k ≤ length out.old }
    ensures { Gives out.new result (times_over (bytes (take k out.old)) times (length out.old)) }
{
    if k == 0 {
        return Ok(0);
    }
    let n = times as usize;
    if out.len() / k < n {
        return Err(Fault::Room);
    }
    let total = k * n;
    again(&mut out[..total], k);
    Ok(total)
}

// Sets each byte from k on to the one k places before it.
fn again(out: &mut [u8], k: usize)
    requires { 0 < k }
    ensures { out.new ≡ tabulate (length out.old) (λ i. get_or out.old (i % k) 0) }
{
    for i in k..out.len() {
        out[i] = out[i - k];
    }
}

// A tree, with zeros after it.
fn pad(script: &[u8], line: &[u8], out: &mut [u8]) -> Result<usize, Fault>
    ensures { Gives out.new result (pad_given script.now line.now (length out.old)) }
{
    if !cases_tokens::figures(line, 3, 4) {
        return Err(Fault::Number);
    }
    let n = plain(giving(script, cases_tokens::token(line, 2)), out)?;
    pad_to(out, n, cases_tokens::figure(line, 3))
}

// The first n bytes, with zeros after them.
fn pad_to(out: &mut [u8], n: usize, size: u32) -> Result<usize, Fault>
    requires { n ≤ length out.old }
    ensures { Gives out.new result (pad_to (bytes (take n out.old)) size (length out.old)) }
{
    let to = size as usize;
    if to < n {
        return Err(Fault::Number);
    }
    if out.len() < to {
        return Err(Fault::Room);
    }
    fill(&mut out[n..to], 0);
    Ok(to)
}

// Sets all bytes to this one.
pub fn fill(out: &mut [u8], byte: u8)
    ensures { out.new ≡ replicate (length out.old) byte }
{
    out.fill(byte);
}
