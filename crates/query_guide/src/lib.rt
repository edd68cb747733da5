// Guides (sampled select directories): what a guide contains, and its size. A guide has, for each counted byte, a word for every 64 occurrences:
// the block of level 0 that contains the first of them. Making and checking one needs the check of the tree: see `build_guide`.
#![tactic(auto)]

pub mod entry_words;

ghost use Rattle.std.specs.Prelude.{◌≡◌};
ghost use Rattle.format.specs.Answers.{NeverZero, replied};
ghost use Rattle.query_guide.specs.Guides.{guide_words_answer, guide_words_reply};

use layout::header;
use refusals::Refusal;

// The number of words of the guide of a tree. Any bytes may be given as a tree: questions 5 to 7.
pub fn guide_words(t: &[u8]) -> Result<u64, Refusal>
    ensures { (replied (guide_words_reply result) ≡ guide_words_answer t.now) × (NeverZero (guide_words_reply result)) }
{
    let h = header::read_header(t)?;
    Ok(entry_words::entries_before(t, h, h.settings.counted))
}
