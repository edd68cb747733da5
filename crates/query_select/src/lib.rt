// Find (select): the place of the j-th occurrence of a counted byte. Any bytes may be given as a tree: questions 5 to 7 come first.
#![tactic(auto)]

pub mod find_by_header;
pub mod seek;

ghost use Rattle.query_select.specs.Found.{IsFindAnswer};

use layout::header;
use layout::place::TextPlace;
use refusals::Refusal;

// The place of the j-th occurrence of a counted byte, with the number of blocks on its path.
pub fn find(t: &[u8], byte: u8, j: u32) -> Result<(TextPlace, u32), Refusal>
    ensures { IsFindAnswer t.now byte j result }
{
    let h = header::read_header(t)?;
    find_by_header::find_at(t, h, byte, j)
}
