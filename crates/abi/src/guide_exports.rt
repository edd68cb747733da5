// The calls on guides: size, make, check; find, row and rows by their first bytes with a guide. Any bytes may be given as a guide.
ghost use Rattle.std.specs.Prelude.{◌≡◌};
ghost use Rattle.query_guide.specs.Guides.{guide_refusal, guide_words_answer, make_guide_answer, make_guide_buffer};
ghost use Rattle.query_guided.specs.Guided.{FindGuidedAnswers};
ghost use Rattle.format.specs.Answers.{RowBy, answer_with};
ghost use Rattle.row_filter.specs.SelectedRows.{starts_with};
ghost use Rattle.query_row_filter.specs.AllowedRows.{AllowedOutcome, query_refusal};
ghost use Rattle.query_places.specs.Places.{pattern_ok};

use crate::figures::{put_next_row, put_row, put_u32, put_words};

// The number of words of the guide of a tree.
pub fn bt_guide_words(tree: &[u8], words: &mut u64) -> u32
    ensures { answer_with result words.new 0 ≡ guide_words_answer tree.now }
{
    let size = query_guide::guide_words(tree);
    put_words(size, words)
}

// Writes the guide of a tree to the start of a table and returns its number of words.
pub fn bt_make_guide(tree: &[u8], table: &mut [u8], words: &mut u64) -> u32
    ensures words_after { answer_with result words.new 0 ≡ make_guide_answer tree.now table.old }
    ensures table_after { table.new ≡ make_guide_buffer tree.now table.old }
{
    let size = build_guide::make_guide(tree, table);
    put_words(size, words)
}

// Questions 5 to 9 for the tree, then 24 for the guide.
pub fn bt_check_guide(tree: &[u8], guide: &[u8]) -> u32
    ensures { result ≡ guide_refusal tree.now guide.now }
{
    refusals::result_refusal(build_guide::check_guide(tree, guide))
}

// The place of the j-th occurrence of a counted byte, the number of blocks on its path, and the steps on level 0.
pub fn bt_find_guided(
    tree: &[u8],
    guide: &[u8],
    byte: u32,
    j: u32,
    place: &mut u32,
    entered: &mut u32,
    steps: &mut u32,
) -> u32
    ensures { FindGuidedAnswers tree.now guide.now byte j (answer_with result place.new entered.new)
        steps.new }
{
    if 255 < byte {
        *steps = 0;
        let number = query_rank::uncounted::uncounted(tree, 0).number();
        return put_u32(place, 0, put_u32(entered, 0, number));
    }
    let found = query_guided::find_guided(tree, guide, byte as u8, j);
    match found {
        Ok((at, path, walked)) => {
            *steps = walked;
            put_u32(place, at.0, put_u32(entered, path, 0))
        }
        Err(refusal) => {
            *steps = 0;
            put_u32(place, 0, put_u32(entered, 0, refusal.number()))
        }
    }
}

// Copies row q and returns its length.
pub fn bt_row_guided(tree: &[u8], guide: &[u8], q: u32, buffer: &mut [u8], len: &mut u32) -> u32
    ensures { RowBy tree.now
        (guide_refusal tree.now guide.now) q buffer.old result len.new buffer.new }
{
    let copied = query_rows::row_guided(tree, guide, q, buffer);
    put_row(copied, len)
}

// Moves the mark to the next row that starts with the prefix and returns that row, 0 for none. If refused, the mark is unchanged.
pub fn bt_next_with_prefix_guided(
    tree: &[u8],
    guide: &[u8],
    prefix: &[u8],
    mark: &mut u32,
    row: &mut u32,
) -> u32
    ensures { AllowedOutcome tree.now (guide_refusal tree.now guide.now)
        (query_refusal tree.now 16 (pattern_ok prefix.now)) (starts_with prefix.now)
        mark.old (record { refusal = result; row = row.new; mark = mark.new }) }
{
    let answer = query_prefix::next_with_prefix_guided(tree, guide, prefix, *mark);
    put_next_row(answer, mark, row)
}
