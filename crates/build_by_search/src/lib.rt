// The builder that searches the text: writes the block tree of a text into the caller's buffer.
#![tactic(auto)]

mod all_levels;
pub mod level_fill;

ghost use Rattle.std.specs.Prelude.{◌≡◌};
ghost use Rattle.format.specs.Answers.{replied, build_refusal, build_size, build_buffer};
ghost use Rattle.theory_built.specs.BlockSizes.{Taken};
ghost use Rattle.build_by_search.specs.BuildAnswer.{build_reply};
ghost use Rattle.format.specs.Layout.{given};
ghost use Rattle.build_records.specs.State.{record_settings_of};

use layout::settings::Settings;
use refusals::Refusal;

// Writes the block tree of a text into a buffer, and returns its size: questions 1 to 4 in order. If refused with 1, 2 or 3, the buffer is unchanged; with 4 it
// is all zero. No other memory is used.
pub fn build(
    text: &[u8],
    leaf: u32,
    arity: u32,
    levels: u32,
    counted: &[u8],
    out: &mut [u8],
) -> Result<u32, Refusal>
    ensures number { (replied (build_reply result)).number
        ≡ build_refusal (given leaf arity levels counted.now) text.now out.old }
    ensures size { (replied (build_reply result)).value ≡ build_size (given leaf arity levels counted.now) text.now out.old }
    ensures buffer { out.new ≡ build_buffer (given leaf arity levels counted.now) text.now out.old }
{
    if (Settings::MAX_TEXT as usize) < text.len() {
        return Err(Refusal::TextTooLong);
    }
    let s = Settings::new(leaf, arity, levels, counted)?;
    build_with(text, counted, s, out)
}

// The same, for settings that pass questions 1 to 3.
fn build_with(text: &[u8], counted: &[u8], s: Settings, out: &mut [u8]) -> Result<u32, Refusal>
    requires { Taken (record_settings_of s counted.now) text.now }
    ensures result_value { (replied (build_reply result)).number ≡ build_refusal (record_settings_of s counted.now) text.now out.old }
    ensures result_value_2 { (replied (build_reply result)).value ≡ build_size (record_settings_of s counted.now) text.now out.old }
    ensures out_after { out.new ≡ build_buffer (record_settings_of s counted.now) text.now out.old }
{
    let size = all_levels::write_tree(out, text, counted, s);
    if size == 0 {
        let all = out.len();
        byte_slices::clear(out, all);
        return Err(Refusal::TreeDoesNotFit);
    }
    Ok(size)
}
