// Marking: decides which blocks of a level are kept, and where the others point.
#![tactic(auto)]

mod occurrences;
pub mod pair;
pub mod target;

ghost use Rattle.build_records.specs.State.{record_settings_of, BlockIs};
ghost use Rattle.build_marking.specs.MarkingRule.{Next};

use build_records::level_written::Level;
use build_records::record_written::Block;
use layout::place::{BlockNumber, Link};

// A marked block: its number, whether it is kept, and the link that a kept block gets.
#[derive(Clone, Copy)]
pub struct Marked {
    pub number: BlockNumber,
    pub kept: bool,
    pub link: Link,
}

// The values of the record of a block.
pub fn block_at(text: &[u8], counted: &[u8], out: &[u8], level: Level, b: Marked) -> Block
    requires { Next (record_settings_of level.settings counted.now) text.now out.now level b.number.0 b.kept b.link.0 }
    ensures { BlockIs (record_settings_of level.settings counted.now) text.now level.number b.number.0 result }
{
    let i = b.number;
    if b.kept {
        let link = b.link;
        return target::kept_block(text, counted, out, level, i, link);
    }
    let place = occurrences::first_place(text, counted, out, level, i);
    target::pointing_block(text, counted, out, level, i, place)
}
