// The figures of an answer, written behind the caller's references.
ghost use Rattle.std.specs.Prelude.{◌≡◌};
ghost use Rattle.format.specs.Answers.{replied, answer_with};
ghost use Rattle.query_guide.specs.Guides.{guide_words_reply};
ghost use Rattle.query_rows.specs.RowAnswers.{row_reply};
ghost use Rattle.query_row_filter.specs.AllowedRows.{outcome_of};

use query_row_filter::NextRow;
use refusals::Refusal;

// Writes a figure and returns the number of the answer.
pub fn put_u32(figure: &mut u32, value: u32, number: u32) -> u32
    ensures { (result ≡ number) × (figure.new ≡ value) }
{
    *figure = value;
    number
}

// The same for a figure of 64 bits.
pub fn put_u64(figure: &mut u64, value: u64, number: u32) -> u32
    ensures { (result ≡ number) × (figure.new ≡ value) }
{
    *figure = value;
    number
}

// Writes the number of words of a guide.
pub fn put_words(answer: Result<u64, Refusal>, words: &mut u64) -> u32
    ensures { answer_with result words.new 0 ≡ replied (guide_words_reply answer) }
{
    match answer {
        Ok(n) => put_u64(words, n, 0),
        Err(refusal) => put_u64(words, 0, refusal.number()),
    }
}

// Writes the length of a row.
pub fn put_row(answer: Result<u32, Refusal>, len: &mut u32) -> u32
    ensures { answer_with result len.new 0 ≡ replied (row_reply answer) }
{
    match answer {
        Ok(size) => put_u32(len, size, 0),
        Err(refusal) => put_u32(len, 0, refusal.number()),
    }
}

// Writes the row and the mark of a search for the next row. If refused, the mark is unchanged.
pub fn put_next_row(answer: Result<NextRow, Refusal>, mark: &mut u32, row: &mut u32) -> u32
    ensures { record { refusal = result; row = row.new; mark = mark.new } ≡ outcome_of mark.old answer }
{
    match answer {
        Ok(NextRow::Row(q)) => put_u32(row, q, put_u32(mark, q, 0)),
        Ok(NextRow::Nothing(m)) => put_u32(row, 0, put_u32(mark, m, 0)),
        Err(refusal) => put_u32(row, 0, refusal.number()),
    }
}
