// The list program: its questions, its lines and what it prints.
#![tactic(auto)]

mod kinds;
mod put;

ghost use Rattle.std.specs.Prelude.{◌≡◌, ◌+◌, ◌≤◌, length};
ghost use Rattle.format.specs.Layout as at;
ghost use Rattle.layout.specs.HeaderFields.{HeaderOf};
ghost use Rattle.list_lines.specs.ListedLines.{ListPut, line, level_line, lines_below, refused_line, input_refusal, printed, max_line, max_lines};
ghost use Rattle.list_lines.specs.LevelTable.{max_refused, Level};
ghost use Rattle.list_lines.specs.ListedLines.{IsListAnswer, list_buffer};
ghost use Rattle.refusals.specs.Refusals.{refusal_number, result_refusal};

use layout::header::Header;
use layout::settings::Settings;
use layout::{header, record};
use refusals::Refusal;

// The size of the largest tree that is listed.
pub const MAX_INPUT: usize = 65536;

// The largest number of bytes of a line: four numbers of at most ten digits, each with the byte after it.
const MAX_LINE: usize = 4 * (10 + 1);

// The largest number of bytes that are written or printed: a line for each level.
pub const MAX_LINES: usize = Settings::MAX_LEVELS as usize * MAX_LINE;

// Writes a line for each level of a tree to the start of a buffer, and returns their length. Questions 15, 5 to 9 and 13.
pub fn list(tree: &[u8], out: &mut [u8]) -> Result<u32, Refusal>
    ensures list_answer { IsListAnswer tree.now (length out.old) result }
    ensures out_after { out.new ≡ list_buffer tree.now out.old }
{
    if let Err(refusal) = check_input(tree) {
        return Err(refusal);
    }
    let mut lines = [0u8; MAX_LINES];
    let size = level_lines(tree, &mut lines);
    if out.len() < size {
        return Err(Refusal::AnswerDoesNotFit);
    }
    put::bytes(out, 0, &lines[..size]);
    Ok(size as u32)
}

// Writes what the list program prints to the start of a buffer and returns its length: a line for each level of an accepted tree, else the refusal.
pub fn print(input: &[u8], out: &mut [u8; MAX_LINES]) -> usize
    ensures { ListPut out.old out.new 0 result (printed input.now) max_lines }
{
    match check_input(input) {
        Ok(()) => level_lines(input, out),
        Err(refusal) => refused(refusal, out),
    }
}

// Question 15, then those of the check.
fn check_input(input: &[u8]) -> Result<(), Refusal>
    ensures { result_refusal result ≡ input_refusal input.now }
{
    if MAX_INPUT < input.len() {
        return Err(Refusal::TreeTooLongToList);
    }
    tree::check(input)
}

// Writes the line of a refused tree.
fn refused(refusal: Refusal, out: &mut [u8]) -> usize
    requires { max_refused ≤ length out.old }
    ensures { ListPut out.old out.new 0 result (refused_line (refusal_number refusal)) max_refused }
{
    let number = refusal.number();
    let end = put::bytes(out, 0, b"refused ");
    put::number_and(out, end, number, 10)
}

// Writes the lines of the levels of an accepted tree.
fn level_lines(t: &[u8], out: &mut [u8]) -> usize
    requires { (input_refusal t.now ≡ 0) × (max_lines ≤ length out.old) }
    ensures { ListPut out.old out.new 0 result (printed t.now) max_lines }
{
    match header::read_header(t) {
        Ok(h) => levels(t, h, out),
        Err(refusal) => refused(refusal, out),
    }
}

// Writes the lines of all levels.
fn levels(t: &[u8], h: Header, out: &mut [u8]) -> usize
    requires { HeaderOf t.now h × (max_lines ≤ length out.old) }
    ensures { ListPut out.old out.new 0 result (lines_below t.now (at.settings t.now).levels) max_lines }
{
    let mut end: usize = 0;
    for l in 0..h.settings.levels {
        end = level_line(t, h.record_size, l, out, end);
    }
    end
}

// Writes the line of a level: its number, the number of its blocks, of the kept ones and of the pointing ones.
fn level_line(t: &[u8], size: u32, level: u32, out: &mut [u8], at: usize) -> usize
    requires { Level t.now size level × (at + max_line ≤ length out.old) }
    ensures { ListPut out.old out.new at result (level_line t.now level) max_line }
{
    let blocks = record::level_count(t, level);
    let kept = kinds::count_of(t, size, level, 0);
    let pointing = kinds::count_of(t, size, level, 1);
    four(out, at, level, blocks, kept, pointing)
}

// Writes four numbers on a line.
fn four(out: &mut [u8], at: usize, a: u32, b: u32, c: u32, d: u32) -> usize
    requires { at + max_line ≤ length out.old }
    ensures { ListPut out.old out.new at result (line a b c d) max_line }
{
    let end_a = put::number_and(out, at, a, 32);
    let end_b = put::number_and(out, end_a, b, 32);
    let end_c = put::number_and(out, end_b, c, 32);
    put::number_and(out, end_c, d, 10)
}
