// The figures of a tree that a caller needs before reading its text; and the version of the library.
ghost use Rattle.std.specs.Prelude.{◌≡◌};
ghost use Rattle.format.specs.TreeReading.{header_result};
ghost use Rattle.query_rows.specs.RowAnswers.{RowLengthAnswers, row_count_answer};
ghost use Rattle.query_places.specs.Places.{places_words_answer};
ghost use Rattle.query_info.specs.Info.{info_buffer, version_number};
ghost use Rattle.format.specs.Answers.{answer_with};

use crate::figures::{put_u32, put_u64};

// The version as one number.
pub fn bt_version() -> u32
    ensures { result ≡ version_number }
{
    query_info::version()
}

// Writes the figures of a tree, in order.
pub fn bt_info(tree: &[u8], figures: &mut [u64; query_info::FIGURES]) -> u32
    ensures value { result ≡ header_result tree.now }
    ensures figures_after { figures.new ≡ info_buffer tree.now }
{
    refusals::result_refusal(query_info::info(tree, figures))
}

// The number of rows.
pub fn bt_row_count(tree: &[u8], rows: &mut u64) -> u32
    ensures { answer_with result rows.new 0 ≡ row_count_answer tree.now }
{
    let count = query_rows::row_count(tree);
    match count {
        Ok(n) => put_u64(rows, n, 0),
        Err(refusal) => put_u64(rows, 0, refusal.number()),
    }
}

// The length of row q.
pub fn bt_row_length(tree: &[u8], q: u32, len: &mut u32) -> u32
    ensures { RowLengthAnswers tree.now q result len.new }
{
    let length = query_rows::row_length(tree, q);
    match length {
        Ok(n) => put_u32(len, n, 0),
        Err(refusal) => put_u32(len, 0, refusal.number()),
    }
}

// The number of words that are enough for all places of any pattern of `len` bytes.
pub fn bt_places_words(tree: &[u8], len: u32, words: &mut u32) -> u32
    ensures { answer_with result words.new 0 ≡ places_words_answer tree.now len }
{
    let room = query_places::places_words(tree, len);
    match room {
        Ok(n) => put_u32(words, n, 0),
        Err(refusal) => put_u32(words, 0, refusal.number()),
    }
}
