// Row: copies one row of the text, with or without a guide; the length of a row, and the number of rows. Any bytes may be given as a tree: questions 5 to 7
// come first.
#![tactic(auto)]

mod next_newline;
pub mod row_bounds;
mod row_copy;
mod row_lengths;

ghost use Rattle.query_guide.specs.Guides.{guide_refusal};
ghost use Rattle.query_rows.specs.RowAnswers.{IsRowAnswer, RowAnswerBy, IsRowLengthAnswer, IsRowCountAnswer};

use layout::header;
use refusals::Refusal;

// Copies row q to the start of the buffer: the bytes before the q-th byte 10, without one byte 13 directly before it; or those after the last byte 10, if q
// is the total plus one. Returns the number of bytes of the row.
pub fn row(t: &[u8], q: u32, buffer: &mut [u8]) -> Result<u32, Refusal>
    ensures { IsRowAnswer t.now q buffer.old result buffer.new }
{
    let h = header::read_header(t)?;
    row_copy::row_at(t, h, &t[0..0], false, q, buffer)
}

// The same, with a guide, which may be any bytes.
pub fn row_guided(t: &[u8], guide: &[u8], q: u32, buffer: &mut [u8]) -> Result<u32, Refusal>
    ensures { RowAnswerBy t.now (guide_refusal t.now guide.now) q buffer.old result buffer.new }
{
    let h = header::read_header(t)?;
    row_copy::row_at(t, h, guide, true, q, buffer)
}

// The number of bytes of row q, and so the size of the buffer that row needs.
pub fn row_length(t: &[u8], q: u32) -> Result<u32, Refusal>
    ensures { IsRowLengthAnswer t.now q result }
{
    let h = header::read_header(t)?;
    row_lengths::length_at(t, h, q)
}

// The number of rows: the total of byte 10, and one more if the last byte is another one.
pub fn row_count(t: &[u8]) -> Result<u64, Refusal>
    ensures { IsRowCountAnswer t.now result }
{
    let h = header::read_header(t)?;
    row_lengths::count_at(t, h)
}
