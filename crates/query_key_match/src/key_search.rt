// The search for a match, of a tree that passes questions 5 to 7, by its header.
ghost use Rattle.layout.specs.HeaderFields.{HeaderOf};
ghost use Rattle.query_key_match.specs.MatchAnswer.{IsMatchAnswer};

use keys::ranges;
use keys::ranges::Ranges;
use layout::header::Header;
use query_row_filter::rows_after::RowsStart;
use query_row_filter::{NextRow, rows_after};
use refusals::Refusal;

// Questions 19, 11 and 14.
pub fn match_at(t: &[u8], h: Header, question: &[u8], mark: u32) -> Result<NextRow, Refusal>
    requires { HeaderOf t.now h }
    ensures { IsMatchAnswer t.now question.now mark result }
{
    if !ranges::are_ranges(question) {
        return Err(Refusal::CutsWrong);
    }
    let ranges = Ranges { bytes: question };
    let start = rows_after::begin(t, h, &t[0..0], false, mark);
    match start {
        RowsStart::At(place, tens) => rows_after::limit(
            rows_after::search(t, h, ranges, place, mark + 1),
            tens,
        ),
        RowsStart::Answered(answer) => answer,
    }
}
