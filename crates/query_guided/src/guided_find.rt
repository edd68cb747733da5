// Find with a guide in a tree that passes questions 5 to 7, given its header.
ghost use Rattle.std.specs.Prelude.{◌≡◌, ◌≤◌, ◌<◌};
ghost use Rattle.format.specs.Answers.{NeverZero, replied, total};
ghost use Rattle.format.specs.Layout as at;
ghost use Rattle.layout.specs.HeaderFields.{HeaderOf};
ghost use Rattle.theory_counts.specs.CountsLocal.{byte_of};
ghost use Rattle.query_guided.specs.Guided.{IsFindGuidedAnswer, find_guided_reply, steps_of};
ghost use Rattle.query_guided.specs.GuidedWalk.{stepped, found_of, SoughtBy};

use layout::header::Header;
use layout::place::{BlockNumber, TextPlace};
use layout::{record, word};
use query_counted::CountedByte;
use query_guide::entry_words;
use query_select::seek;
use query_select::seek::CountField;
use refusals::Refusal;

// Questions 11, 12 and 14.
pub fn find_guided_at(
    t: &[u8],
    h: Header,
    guide: &[u8],
    byte: u8,
    j: u32,
) -> Result<(TextPlace, u32, u32), Refusal>
    requires { HeaderOf t.now h }
    ensures { IsFindGuidedAnswer t.now guide.now byte j result }
{
    let number = query_counted::number_of(t, h.settings.counted, byte);
    if h.settings.counted <= number {
        return Err(Refusal::ByteNotCounted);
    }
    if j == 0 {
        return Err(Refusal::NoSuchOccurrence);
    }
    let all = query_counted::total(t, h, number);
    if all < j as u64 {
        return Err(Refusal::NoSuchOccurrence);
    }
    guided(&t, h, guide, CountedByte { byte, number }, j)
}

// Starts at entry (j - 1) / 64 of the byte. Refused with 14 if the guide has no such entry, or if the entry is not a block of level 0.
pub fn guided(
    t: &&[u8],
    h: Header,
    guide: &[u8],
    wanted: CountedByte,
    j: u32,
) -> Result<(TextPlace, u32, u32), Refusal>
    requires { (HeaderOf t.now.now h) × (wanted.number < at.counted_count t.now.now)
        × (wanted.byte ≡ byte_of t.now.now wanted.number) × (1 ≤ j) × (j ≤ total t.now.now wanted.number) }
    ensures { (SoughtBy t.now.now guide.now wanted.byte wanted.number j (replied (find_guided_reply result)) (steps_of result))
        × (NeverZero (find_guided_reply result)) }
{
    let tree = *t;
    let place = entry_words::entries_before(tree, h, wanted.number)
        + (j as u64 - 1) / entry_words::LISTED_EVERY;
    if guide.len() as u64 / 4 <= place {
        return Err(Refusal::PathBroken);
    }
    let entry = word::read(guide, 4 * (place as usize));
    if record::level_count(tree, 0) <= entry {
        return Err(Refusal::PathBroken);
    }
    let along = entry_words::block_from(tree, h, wanted.number, BlockNumber(entry), j as u64);
    let field = CountField {
        size: h.record_size,
        number: wanted.number,
    };
    let word = seek::word_in(t, field, h.top_length, along.block, j);
    with_steps(seek::text_place(h.text_length, word), along.steps)
}

// The answer of find with the steps on level 0 added.
fn with_steps(
    found: Result<(TextPlace, u32), Refusal>,
    steps: u32,
) -> Result<(TextPlace, u32, u32), Refusal>
    ensures { result ≡ stepped found steps }
{
    let (place, entered) = found?;
    Ok((place, entered, steps))
}

// The answer without the steps.
pub fn without_steps(
    guided: Result<(TextPlace, u32, u32), Refusal>,
) -> Result<(TextPlace, u32), Refusal>
    ensures { result ≡ found_of guided }
{
    let (place, entered, _) = guided?;
    Ok((place, entered))
}
