// Row in a tree that passes questions 5 to 7, given its header.
ghost use Rattle.layout.specs.HeaderFields.{HeaderOf};
ghost use Rattle.query_rows.specs.RowAnswers.{RowAnswerBy};
ghost use Rattle.query_rows.specs.RowSpans.{settled_by};

use crate::row_bounds;
use layout::header::Header;
use query_access::read_by_header;
use refusals::Refusal;

// Questions 11, 12, 13 and 14. The bounds of the row come first; they are found with the guide if `used` is true. If a path breaks during the copy, the call
// is refused with 14 and the row's part of the buffer becomes zero.
pub fn row_at(
    t: &[u8],
    h: Header,
    guide: &[u8],
    used: bool,
    q: u32,
    buffer: &mut [u8],
) -> Result<u32, Refusal>
    requires { HeaderOf t.now h }
    ensures { RowAnswerBy t.now (settled_by t.now guide.now used) q buffer.old result buffer.new }
{
    let found = row_bounds::row_bounds(t, h, guide, used, q);
    let Ok((start, len, run)) = found else {
        return Err(found.unwrap_err());
    };
    if buffer.len() < len as usize {
        return Err(Refusal::AnswerDoesNotFit);
    }
    let copied = read_by_header::copy_on(t, h, run, start, len, buffer);
    let Ok((n, _)) = copied else {
        let refusal = copied.unwrap_err();
        return Err(refusal);
    };
    Ok(n)
}
