// Rows by prefix: the next row after a mark that starts with a prefix, without a guide and with one.
#![tactic(auto)]

mod prefix_search;

ghost use Rattle.format.specs.TreeReading.{check_result};
ghost use Rattle.row_filter.specs.SelectedRows.{starts_with};
ghost use Rattle.query_guide.specs.Guides.{guide_refusal};
ghost use Rattle.query_row_filter.specs.AllowedRows.{AllowedAnswer, query_refusal};
ghost use Rattle.query_places.specs.Places.{pattern_ok};

use layout::header;
use query_row_filter::NextRow;
use refusals::Refusal;

// The first row after a mark that starts with a prefix.
pub fn next_with_prefix(t: &[u8], prefix: &[u8], mark: u32) -> Result<NextRow, Refusal>
    ensures { AllowedAnswer t.now (check_result t.now)
        (query_refusal t.now 16 (pattern_ok prefix.now)) (starts_with prefix.now) mark result }
{
    let h = header::read_header(t)?;
    prefix_search::next_at(t, h, &t[0..0], false, prefix, mark)
}

// The same with a guide, which may be any bytes: the search begins at the end of the mark's row, found from an entry of the guide.
pub fn next_with_prefix_guided(
    t: &[u8],
    guide: &[u8],
    prefix: &[u8],
    mark: u32,
) -> Result<NextRow, Refusal>
    ensures { AllowedAnswer t.now (guide_refusal t.now guide.now)
        (query_refusal t.now 16 (pattern_ok prefix.now)) (starts_with prefix.now) mark result }
{
    let h = header::read_header(t)?;
    prefix_search::next_at(t, h, guide, true, prefix, mark)
}
