// The builder with one scan for each level: it enters the blocks and pairs of a level in the caller's table of words and passes once over the text. It writes
// the same tree as the builder that searches.
#![tactic(auto)]

mod scanned_fill;
mod scanned_levels;
mod table;

ghost use Rattle.std.specs.Prelude.{◌≡◌, length};
ghost use Rattle.format.specs.Answers.{replied};
ghost use Rattle.theory_built.specs.BlockSizes.{Taken};
ghost use Rattle.format.specs.Layout.{given};
ghost use Rattle.build_records.specs.State.{record_settings_of};
ghost use Rattle.build_by_scan.specs.ScanAnswers.{build_scanned_reply, table_words, build_scanned_refusal};
ghost use Rattle.build_by_scan.specs.ScanAnswers.{scan_size, scan_windows, build_scanned_buffer, TableLeft};

use layout::settings::Settings;
use refusals::Refusal;

// The number of words that the table must have for a text of n bytes.
pub fn scan_words(n: u32, leaf: u32) -> u64
    ensures { result ≡ table_words n leaf }
{
    if leaf == 0 {
        return 0;
    }
    4 * ((n as u64 + (leaf - 1) as u64) / leaf as u64)
}

// Writes the block tree of a text into a buffer, and returns its size and the number of windows looked up: questions 1 to 3, then 18 (the table has fewer than
// four words for each leaf length of the text), then 4. If refused with 1, 2, 3 or 18, table and buffer are unchanged; with 4 the buffer is all zero. The table
// may contain anything afterwards. Its contents at entry affect only the time: its first word is the seed of the fingerprints.
pub fn build_scanned(
    text: &[u8],
    leaf: u32,
    arity: u32,
    levels: u32,
    counted: &[u8],
    words: &mut [u32],
    out: &mut [u8],
) -> Result<(u32, u32), Refusal>
    ensures number { (replied (build_scanned_reply result)).number
        ≡ build_scanned_refusal (given leaf arity levels counted.now) text.now out.old (length words.old) }
    ensures size { (replied (build_scanned_reply result)).value
        ≡ scan_size (given leaf arity levels counted.now) text.now out.old (length words.old) }
    ensures windows { (replied (build_scanned_reply result)).entered
        ≡ scan_windows (given leaf arity levels counted.now) text.now out.old (length words.old) }
    ensures buffer { out.new
        ≡ build_scanned_buffer (given leaf arity levels counted.now) text.now out.old (length words.old) }
    ensures table { TableLeft (replied (build_scanned_reply result)).number words.old words.new }
{
    if (Settings::MAX_TEXT as usize) < text.len() {
        return Err(Refusal::TextTooLong);
    }
    let s = Settings::new(leaf, arity, levels, counted)?;
    scan_with(text, counted, s, words, out)
}

// The same, for settings that pass questions 1 to 3.
fn scan_with(
    text: &[u8],
    counted: &[u8],
    s: Settings,
    words: &mut [u32],
    out: &mut [u8],
) -> Result<(u32, u32), Refusal>
    requires { Taken (record_settings_of s counted.now) text.now }
    ensures result_value { (replied (build_scanned_reply result)).number
        ≡ build_scanned_refusal (record_settings_of s counted.now) text.now out.old (length words.old) }
    ensures result_value_2 { (replied (build_scanned_reply result)).value
        ≡ scan_size (record_settings_of s counted.now) text.now out.old (length words.old) }
    ensures result_value_3 { (replied (build_scanned_reply result)).entered
        ≡ scan_windows (record_settings_of s counted.now) text.now out.old (length words.old) }
    ensures out_after { out.new ≡ build_scanned_buffer (record_settings_of s counted.now) text.now out.old
        (length words.old) }
    ensures table_left { TableLeft (replied (build_scanned_reply result)).number words.old words.new }
{
    if (words.len() as u64) < scan_words(text.len() as u32, s.leaf) {
        return Err(Refusal::ScanTableTooShort);
    }
    let wrote = scanned_levels::write_tree(out, words, text, counted, s);
    if wrote.size == 0 {
        let all = out.len();
        byte_slices::clear(out, all);
        return Err(Refusal::TreeDoesNotFit);
    }
    Ok((wrote.size, wrote.windows))
}
