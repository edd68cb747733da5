// Reads a row of the original text from the tree of a text by columns. Any bytes may be given as a tree: questions 5 to 7 come first.
#![tactic(auto)]

ghost use Rattle.std.specs.Prelude.{◌≡◌, length};
ghost use Rattle.layout.specs.HeaderFields.{HeaderOf};
ghost use Rattle.query_columns.specs.ColumnRows.{IsRowByColumnsAnswer, row_by_columns_buffer};
ghost use Rattle.query_columns.specs.RowThere.{RowThere};

use layout::header;
use layout::header::Header;
use layout::place::TextPlace;
use query_access::read_by_header;
use refusals::Refusal;

// Copies row a, from 0, of rows of `width` bytes, end byte included, to the start of the buffer. Returns the width, and 0: the number of blocks
// entered is not reported.
pub fn row_by_columns(
    t: &[u8],
    width: u32,
    a: u32,
    buffer: &mut [u8],
) -> Result<(u32, u32), Refusal>
    ensures row_by_columns_answer { IsRowByColumnsAnswer t.now width a (length buffer.old) result }
    ensures buffer_after { buffer.new ≡ row_by_columns_buffer t.now width a buffer.old }
{
    let h = header::read_header(t)?;
    row_at(t, h, width, a, buffer)
}

// Questions 20, 10 and 13, given the header.
fn row_at(t: &[u8], h: Header, width: u32, a: u32, buffer: &mut [u8]) -> Result<(u32, u32), Refusal>
    requires { HeaderOf t.now h }
    ensures row_by_columns_answer { IsRowByColumnsAnswer t.now width a (length buffer.old) result }
    ensures buffer_after { buffer.new ≡ row_by_columns_buffer t.now width a buffer.old }
{
    if !columns::divides(width, h.text_length as usize) {
        return Err(Refusal::WidthDoesNotDivide);
    }
    let rows = h.text_length / width;
    if rows <= a {
        return Err(Refusal::PastTheEnd);
    }
    if buffer.len() < width as usize {
        return Err(Refusal::AnswerDoesNotFit);
    }
    copy(t, h, width, rows, a, buffer)
}

// Question 14: reads the byte of each column by its path. If one is refused, the row's part of the buffer becomes zero.
fn copy(
    t: &[u8],
    h: Header,
    width: u32,
    rows: u32,
    a: u32,
    buffer: &mut [u8],
) -> Result<(u32, u32), Refusal>
    requires { RowThere t.now h width rows a (length buffer.old) }
    ensures row_by_columns_answer { IsRowByColumnsAnswer t.now width a (length buffer.old) result }
    ensures buffer_after { buffer.new ≡ row_by_columns_buffer t.now width a buffer.old }
{
    for b in 0..width {
        let answer = read_by_header::byte_at(t, h, TextPlace(b * rows + a));
        let Ok((value, _)) = answer else {
            byte_slices::clear(buffer, width as usize);
            return Err(answer.unwrap_err());
        };
        buffer[b as usize] = value;
    }
    Ok((width, 0))
}
