// The length of a row and the number of rows in a tree that passes questions 5 to 7, given its header.
ghost use Rattle.layout.specs.HeaderFields.{HeaderOf};
ghost use Rattle.query_rows.specs.RowAnswers.{IsRowLengthAnswer, IsRowCountAnswer};

use crate::row_bounds;
use layout::header::Header;
use layout::place::TextPlace;
use query_access::read_by_header;
use refusals::Refusal;

// Questions 11, 12 and 14, from the bounds of the row.
pub fn length_at(t: &[u8], h: Header, q: u32) -> Result<u32, Refusal>
    requires { HeaderOf t.now h }
    ensures { IsRowLengthAnswer t.now q result }
{
    let (_, len, _) = row_bounds::row_bounds(t, h, &t[0..0], false, q)?;
    Ok(len)
}

// Questions 11 and 14: the total of byte 10, and one more if the last byte is another one.
pub fn count_at(t: &[u8], h: Header) -> Result<u64, Refusal>
    requires { HeaderOf t.now h }
    ensures { IsRowCountAnswer t.now result }
{
    let number = query_counted::number_of(t, h.settings.counted, 10);
    if h.settings.counted <= number {
        return Err(Refusal::ByteNotCounted);
    }
    let tens = query_counted::total(t, h, number);
    if h.text_length == 0 {
        return Ok(tens);
    }
    let answer = read_by_header::byte_at(t, h, TextPlace(h.text_length - 1));
    let Ok((value, _)) = answer else {
        return Err(answer.unwrap_err());
    };
    if value == 10 {
        return Ok(tens);
    }
    Ok(tens + 1)
}
