// Count in a tree that passes questions 5 to 7, given its header.
ghost use Rattle.std.specs.Prelude.{◌≡◌};
ghost use Rattle.format.specs.Answers.{NeverZero, replied};
ghost use Rattle.layout.specs.HeaderFields.{HeaderOf};
ghost use Rattle.query_rank.specs.Counts.{count_reply, IsCountAnswer};
ghost use Rattle.query_rank.specs.Sums.{answer_in};

use crate::sums;
use layout::header::Header;
use layout::place::TextPlace;
use query_counted::CountedByte;
use refusals::Refusal;

// Questions 10, 11 and 14. The first i bytes end with place i - 1; for i = 0 no path is needed.
pub fn count_at(t: &[u8], h: Header, byte: u8, i: u32) -> Result<(u64, u32), Refusal>
    requires { HeaderOf t.now h }
    ensures { IsCountAnswer t.now byte i result }
{
    if h.text_length < i {
        return Err(Refusal::PastTheEnd);
    }
    let number = query_counted::number_of(t, h.settings.counted, byte);
    if h.settings.counted <= number {
        return Err(Refusal::ByteNotCounted);
    }
    if i == 0 {
        return Ok((0, 0));
    }
    settle(sums::walk(t, h, CountedByte { byte, number }, TextPlace(i - 1)))
}

// The answer that the word of a count represents.
fn settle(word: u64) -> Result<(u64, u32), Refusal>
    ensures { (replied (count_reply result) ≡ answer_in word) × (NeverZero (count_reply result)) }
{
    if word == sums::BROKEN {
        return Err(Refusal::PathBroken);
    }
    Ok((word % 281474976710656, (word / 281474976710656) as u32))
}
