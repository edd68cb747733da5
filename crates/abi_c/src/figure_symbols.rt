// The symbols of the functions of `abi::figure_exports`.
ghost use Rattle.std.specs.Prelude.{◌≡◌};
ghost use Rattle.format.specs.TreeReading.{header_result};
ghost use Rattle.query_rows.specs.RowAnswers.{RowLengthAnswers, row_count_answer};
ghost use Rattle.query_places.specs.Places.{places_words_answer};
ghost use Rattle.query_info.specs.Info.{info_buffer, version_number};
ghost use Rattle.format.specs.Answers.{answer_with};

// The version as one number.
#[unsafe(no_mangle)]
pub extern "C" fn bt_version() -> u32
    ensures { result ≡ version_number }
{
    abi::figure_exports::bt_version()
}

// Writes the figures of a tree, in order.
#[unsafe(no_mangle)]
pub extern "C" fn bt_info(tree: &[u8], figures: &mut [u64; query_info::FIGURES]) -> u32
    ensures value { result ≡ header_result tree.now }
    ensures figures_after { figures.new ≡ info_buffer tree.now }
{
    abi::figure_exports::bt_info(tree, figures)
}

// The number of rows.
#[unsafe(no_mangle)]
pub extern "C" fn bt_row_count(tree: &[u8], rows: &mut u64) -> u32
    ensures { answer_with result rows.new 0 ≡ row_count_answer tree.now }
{
    abi::figure_exports::bt_row_count(tree, rows)
}

// The length of row q.
#[unsafe(no_mangle)]
pub extern "C" fn bt_row_length(tree: &[u8], q: u32, len: &mut u32) -> u32
    ensures { RowLengthAnswers tree.now q result len.new }
{
    abi::figure_exports::bt_row_length(tree, q, len)
}

// The number of words that are enough for all places of any pattern of `len` bytes.
#[unsafe(no_mangle)]
pub extern "C" fn bt_places_words(tree: &[u8], len: u32, words: &mut u32) -> u32
    ensures { answer_with result words.new 0 ≡ places_words_answer tree.now len }
{
    abi::figure_exports::bt_places_words(tree, len, words)
}
