// Byte, run and span: any bytes may be given as a tree, and each call checks questions 5 to 7 first.
#![tactic(auto)]

pub mod descent;
mod questions;
pub mod read_by_header;
mod short_copy;

ghost use Rattle.std.specs.Prelude.{◌≡◌, ◌+◌, length, take, drop};
ghost use Rattle.format.specs.Answers.{replied, byte_answer, run_answer, span_buffer};
ghost use Rattle.query_access.specs.ReadAnswers.{byte_reply, IsRunAnswer, IsSpanAnswer};

use crate::read_by_header::TreeRange;
use layout::header;
use layout::place::TextPlace;
use refusals::Refusal;

// The byte at a place of the text (access), with the number of blocks entered.
pub fn byte(t: &[u8], at: TextPlace) -> Result<(u8, u32), Refusal>
    ensures { replied (byte_reply result) ≡ byte_answer t.now at.0 }
{
    let h = header::read_header(t)?;
    read_by_header::byte_at(t, h, at)
}

// The longest contiguous leaf range that begins at the end of the place's path and stays in every block of the path; empty if byte is refused.
pub fn run(t: &[u8], at: TextPlace) -> &[u8]
    ensures result_value { result.now ≡ take (run_answer t.now at.0).1 (drop (run_answer t.now at.0).0 t.now) }
    ensures ref_ptr_value { result.ref_ptr ≡ (t.entry.ref_ptr.0, t.entry.ref_ptr.1 + (run_answer t.now at.0).0) }
{
    let Ok(part) = run_range(t, at) else {
        return &t[0..0];
    };
    let from = part.from;
    let end = from + part.length;
    &t[from..end]
}

// Where the run of a place is in the bytes of the tree, or the refusal of byte for that place.
pub fn run_range(t: &[u8], at: TextPlace) -> Result<TreeRange, Refusal>
    ensures { IsRunAnswer t.now at.0 result }
{
    let h = header::read_header(t)?;
    read_by_header::run_range_at(t, h, at)
}

// Copies `len` bytes of the text from a place to the start of the buffer: their number, and that of the blocks that a short span entered, 0 for any other span.
pub fn span(t: &[u8], at: TextPlace, len: u32, buffer: &mut [u8]) -> Result<(u32, u32), Refusal>
    ensures span_answer { IsSpanAnswer t.now at.0 len (length buffer.old) result }
    ensures buffer_after { buffer.new ≡ span_buffer t.now at.0 len buffer.old }
{
    let h = header::read_header(t)?;
    read_by_header::span_at(t, h, at, len, buffer)
}
