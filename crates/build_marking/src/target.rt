// Where a pointing block points.
ghost use Rattle.std.specs.Prelude.{true, false, ◌≡◌, ◌+◌, ◌-◌, ◌<◌};
ghost use Rattle.text.specs.Text.{sum_below};
ghost use Rattle.theory_built.specs.Structure.{kept_at, width_of};
ghost use Rattle.theory_built.specs.BuiltTargets.{place_of};
ghost use Rattle.build_records.specs.State.{record_settings_of, BlockNext, BlockIs};
ghost use Rattle.build_marking.specs.TargetSearch.{parent_answer, Sorted, Between};

use build_records::level_written;
use build_records::level_written::Level;
use build_records::record_written::Block;
use layout::place::{BlockNumber, BlockPlace, Link, TextPlace};

// The blocks from `low` up to `high`, excluded.
#[derive(Clone, Copy)]
pub struct Range {
    pub low: BlockNumber,
    pub high: BlockNumber,
}

// The start of the parent of a block; 0 on level 0.
fn parent(level: Level, start: TextPlace) -> TextPlace
    requires { 0 < level.above }
    ensures { result.0 ≡ parent_answer level.number level.above start.0 }
{
    if level.number == 0 {
        return TextPlace(0);
    }
    TextPlace(start.0 / level.above * level.above)
}

// One step of the binary search for the last block that starts at or before a place.
fn narrow(counted: &[u8], out: &[u8], level: Level, place: TextPlace, range: Range) -> Range
    requires sorted { Sorted out.now level.table level.count (record_settings_of level.settings counted.now) }
    requires between { Between out.now level.table level.count (record_settings_of level.settings counted.now) place.0 range.low.0
        range.high.0 }
    requires low_bound { range.low.0 + 1 < range.high.0 }
    ensures between_2 { Between out.now
        level.table level.count (record_settings_of level.settings counted.now) place.0 result.low.0 result.high.0 }
    ensures low_bound_2 { result.high.0 - result.low.0 < range.high.0 - range.low.0 }
{
    let low = range.low;
    let high = range.high;
    let middle = BlockNumber(low.0 + (high.0 - low.0) / 2);
    let start = level_written::start(counted, out, level, middle);
    if place.0 < start.0 {
        return Range { low, high: middle };
    }
    Range { low: middle, high }
}

// The last block that starts at or before a place.
fn holder(counted: &[u8], out: &[u8], level: Level, place: TextPlace) -> BlockNumber
    requires sorted { Sorted out.now level.table level.count (record_settings_of level.settings counted.now) }
    requires between { Between out.now level.table level.count (record_settings_of level.settings counted.now) place.0 0 level.count }
    ensures { Between out.now
        level.table level.count (record_settings_of level.settings counted.now) place.0 result.0 (result.0 + 1) }
{
    let mut range = Range {
        low: BlockNumber(0),
        high: BlockNumber(level.count),
    };
    // A `while`: each step halves the range by what it reads, so there is no sequence of places to go over.
    while range.low.0 + 1 < range.high.0 {
        range = narrow(counted, out, level, place, range);
    }
    range.low
}

// The record of a kept block, with its link.
pub fn kept_block(
    text: &[u8],
    counted: &[u8],
    out: &[u8],
    level: Level,
    i: BlockNumber,
    link: Link,
) -> Block
    requires block_next { BlockNext (record_settings_of level.settings counted.now) text.now out.now level i.0 }
    requires i_value { kept_at (record_settings_of level.settings counted.now) text.now level.number i.0 ≡ true }
    requires link_value { link.0 ≡ sum_below i.0 (width_of (record_settings_of level.settings counted.now) text.now level.number) }
    ensures { BlockIs (record_settings_of level.settings counted.now) text.now level.number i.0 result }
{
    let own = level_written::substring_of(text, counted, out, level, i);
    let start = own.start;
    Block {
        start,
        length: own.length,
        parent: parent(level, start),
        kind: 0,
        link,
        from: TextPlace(0),
        gap: BlockPlace(0),
    }
}

// The record of a pointing block: it points to the block that contains the first occurrence of its bytes.
pub fn pointing_block(
    text: &[u8],
    counted: &[u8],
    out: &[u8],
    level: Level,
    i: BlockNumber,
    place: TextPlace,
) -> Block
    requires block_next { BlockNext (record_settings_of level.settings counted.now) text.now out.now level i.0 }
    requires i_value { kept_at (record_settings_of level.settings counted.now) text.now level.number i.0 ≡ false }
    requires place_value { place.0 ≡ place_of (record_settings_of level.settings counted.now) text.now level.number i.0 }
    ensures { BlockIs (record_settings_of level.settings counted.now) text.now level.number i.0 result }
{
    let own = level_written::substring_of(text, counted, out, level, i);
    let start = own.start;
    let target = holder(counted, out, level, place);
    let from = level_written::start(counted, out, level, target);
    Block {
        start,
        length: own.length,
        parent: parent(level, start),
        kind: 1,
        link: Link(target.0),
        from,
        gap: BlockPlace(place.0 - from.0),
    }
}
