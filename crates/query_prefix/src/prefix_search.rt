// The search for the next row that starts with a prefix, in a tree that passes questions 5 to 7.
ghost use Rattle.layout.specs.HeaderFields.{HeaderOf};
ghost use Rattle.row_filter.specs.SelectedRows.{starts_with};
ghost use Rattle.query_places.specs.Places.{pattern_ok};
ghost use Rattle.query_rows.specs.RowSpans.{settled_by};
ghost use Rattle.query_row_filter.specs.AllowedRows.{AllowedAnswer, query_refusal};

use layout::header::Header;
use prefix_match::prefix_scan::Prefix;
use query_row_filter::rows_after::RowsStart;
use query_row_filter::{NextRow, rows_after};
use refusals::Refusal;

// Questions 16, 11 and 14. The guide is used if `used` is true.
pub fn next_at(
    t: &[u8],
    h: Header,
    guide: &[u8],
    used: bool,
    prefix: &[u8],
    mark: u32,
) -> Result<NextRow, Refusal>
    requires { HeaderOf t.now h }
    ensures { AllowedAnswer t.now (settled_by t.now guide.now used)
        (query_refusal t.now 16 (pattern_ok prefix.now)) (starts_with prefix.now) mark result }
{
    if prefix.len() < 1 {
        return Err(Refusal::PatternLengthWrong);
    }
    if query_places::MAX_PATTERN < prefix.len() {
        return Err(Refusal::PatternLengthWrong);
    }
    let start = rows_after::begin(t, h, guide, used, mark);
    match start {
        RowsStart::At(place, newlines) => rows_after::limit(
            rows_after::search(t, h, Prefix { bytes: prefix }, place, mark + 1),
            newlines,
        ),
        RowsStart::Answered(answer) => answer,
    }
}
