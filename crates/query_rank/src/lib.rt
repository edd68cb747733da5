// Count (rank): how often a counted byte occurs in a prefix of the text. Any bytes may be given as a tree: questions 5 to 7 come first.
#![tactic(auto)]

mod count_by_header;
mod sums;
pub mod uncounted;

ghost use Rattle.query_rank.specs.Counts.{IsCountAnswer};

use layout::header;
use refusals::Refusal;

// Rank: how often a counted byte occurs in the first i bytes of the text, with the number of blocks entered.
pub fn count(t: &[u8], byte: u8, i: u32) -> Result<(u64, u32), Refusal>
    ensures { IsCountAnswer t.now byte i result }
{
    let h = header::read_header(t)?;
    count_by_header::count_at(t, h, byte, i)
}
