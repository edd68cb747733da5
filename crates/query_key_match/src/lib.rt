// The search for a worn key: the next row whose cuts are each in a range of depths.
#![tactic(auto)]

mod key_search;

ghost use Rattle.std.specs.Prelude.{◌≡◌};
ghost use Rattle.query_row_filter.specs.AllowedRows.{outcome_of};
ghost use Rattle.query_key_match.specs.MatchAnswer.{IsMatchAnswer, Moved};

use layout::header;
use query_row_filter::NextRow;
use refusals::Refusal;

// A mark: the number of the last row returned, 0 before the first row.
#[derive(Clone, Copy)]
pub struct Mark {
    pub row: u32,
}

// Moves the caller's mark to the next row that matches, and returns the row.
pub fn advance_mark(mark: &mut Mark, t: &[u8], question: &[u8]) -> Result<NextRow, Refusal>
    ensures { Moved t.now question.now mark.old.row result mark.new.row }
{
    let at = mark.row;
    let answer = next_match(t, question, at);
    let next = after(answer, at);
    mark.row = next;
    answer
}

// The answer of `advance_mark`, and the mark after it.
#[derive(Clone, Copy)]
pub struct AdvanceAnswer {
    pub answer: Result<NextRow, Refusal>,
    pub row: u32,
}

// Moves a mark that starts on a given row, with `advance_mark`.
pub fn advance(t: &[u8], question: &[u8], row: u32) -> AdvanceAnswer
    ensures { Moved t.now question.now row result.answer result.row }
{
    let mut mark = Mark { row };
    let answer = advance_mark(&mut mark, t, question);
    let after = mark.row;
    AdvanceAnswer { answer, row: after }
}

// The first row after a mark that matches.
pub fn next_match(t: &[u8], question: &[u8], mark: u32) -> Result<NextRow, Refusal>
    ensures { IsMatchAnswer t.now question.now mark result }
{
    let h = header::read_header(t)?;
    key_search::match_at(t, h, question, mark)
}

// The mark after an answer; a refusal does not move it.
pub fn after(answer: Result<NextRow, Refusal>, mark: u32) -> u32
    ensures { result ≡ (outcome_of mark answer).mark }
{
    match answer {
        Ok(NextRow::Row(q)) => q,
        Ok(NextRow::Nothing(m)) => m,
        Err(_) => mark,
    }
}
