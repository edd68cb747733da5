// The words of a guide: their number, and the block that each names.
ghost use Rattle.std.specs.Prelude.{◌≡◌, ◌+◌, ◌*◌, ◌/◌, ◌^◌, ◌≤◌, ◌<◌};
ghost use Rattle.format.specs.Layout.{max_counted};
ghost use Rattle.format.specs.Layout as at;
ghost use Rattle.layout.specs.HeaderFields.{HeaderOf};
ghost use Rattle.query_select.specs.Seeks.{LastBefore};
ghost use Rattle.query_guide.specs.Guides.{entries_of, entries_before, listed_every};

use layout::header::Header;
use layout::place::BlockNumber;
use layout::record;
use query_select::seek;
use query_select::seek::{Blocks, CountField, StepResult};

// The sampling rate: one of 64 occurrences has an entry.
pub const LISTED_EVERY: u64 = 64;

// The number of entries of a counted byte: its total / 64, rounded up.
pub fn entries_of(t: &[u8], h: Header, number: u32) -> u64
    requires { (HeaderOf t.now h) × (number < at.counted_count t.now) }
    ensures { (result ≡ entries_of t.now number) × (result ≤ 2 ^ 64 / listed_every) }
{
    let all = query_counted::total(t, h, number);
    if all % LISTED_EVERY == 0 {
        return all / LISTED_EVERY;
    }
    all / LISTED_EVERY + 1
}

// The number of entries of the counted bytes before one.
pub fn entries_before(t: &[u8], h: Header, number: u32) -> u64
    requires { (HeaderOf t.now h) × (number ≤ at.counted_count t.now) }
    ensures { (result ≡ entries_before t.now number) × (result ≤ max_counted * (2 ^ 64 / listed_every)) }
{
    let mut sum: u64 = 0;
    for c in 0..number {
        sum += entries_of(t, h, c);
    }
    sum
}

// From a block of level 0: goes on while the next block's `before` is below j, and counts its steps.
pub fn block_from(t: &[u8], h: Header, number: u32, from: BlockNumber, j: u64) -> StepResult
    requires { (HeaderOf t.now h) × (number < at.counted_count t.now) × (from.0 < at.level_count t.now 0) }
    ensures { (LastBefore t.now number 0 from.0 (at.level_count t.now 0) j result.block.0)
        × (from.0 + result.steps ≡ result.block.0) }
{
    let blocks = Blocks {
        first: from,
        end: BlockNumber(record::level_count(t, 0)),
    };
    let field = CountField {
        size: h.record_size,
        number,
    };
    seek::step_along(t, field, 0, blocks, j)
}
