// Find with a guide: its steps on level 0 start at an entry of the guide. Any bytes may be given as a tree: questions 5 to 7 come first.
#![tactic(auto)]

pub mod guided_find;

ghost use Rattle.query_guided.specs.Guided.{IsFindGuidedAnswer};

use layout::header;
use layout::place::TextPlace;
use refusals::Refusal;

// The place of the j-th occurrence of a counted byte, with the number of blocks on its path and the steps on level 0. The guide may be any bytes.
pub fn find_guided(
    t: &[u8],
    guide: &[u8],
    byte: u8,
    j: u32,
) -> Result<(TextPlace, u32, u32), Refusal>
    ensures { IsFindGuidedAnswer t.now guide.now byte j result }
{
    let h = header::read_header(t)?;
    guided_find::find_guided_at(t, h, guide, byte, j)
}
