// A long span by one descent. On each level it goes over a segment, and copies the segments that have its bytes.
ghost use Rattle.std.specs.Prelude.{◌+◌, ◌*◌, ◌≤◌, length};
ghost use Rattle.format.specs.Layout as at;
ghost use Rattle.format.specs.Layout.{max_text};
ghost use Rattle.format.specs.LayoutLaws.{Readable};
ghost use Rattle.refusals.specs.Refusals.{result_refusal};
ghost use Rattle.walk_ranges.specs.Segments.{SegmentAt, SegmentCopied};

use crate::read_by_header;
use crate::read_by_header::LeafRun;
use layout::fields;
use layout::place::BlockPlace;
use refusals::Refusal;
use walk_ranges::segments;
use walk_ranges::segments::Rules;
use walk_steps::position::{BlockPosition, LevelAt};

// A part of the buffer.
#[derive(Clone, Copy)]
pub struct BufferPart {
    pub to: u32,
    pub size: u32,
}

// Copies a range of leaf bytes; refused if there are not so many.
fn copy_leaves(
    t: &[u8],
    from: BlockPosition,
    part: BufferPart,
    buffer: &mut [u8],
) -> Result<(), Refusal>
    requires { (Readable t.now) × (from.place.0 + part.size ≤ 2 * max_text) × (1 ≤ part.size) × (part.to + part.size ≤ length buffer.old) }
    ensures { SegmentCopied t.now 1 (at.settings t.now).levels from.block.0 from.place.0
        part.size part.to buffer.old buffer.new (result_refusal result) }
{
    let shape = fields::shape_of(t);
    let leaf = from.block.0 as u64 + from.place.0 as u64;
    if (shape.leaf_count as u64) < leaf + part.size as u64 {
        return Err(Refusal::PathBroken);
    }
    let run = LeafRun {
        from: shape.leaf_offset as usize + leaf as usize,
        length: part.size,
        entered: 0,
    };
    read_by_header::copy_range(t, run, part.size, buffer, part.to as usize)?;
    Ok(())
}

// Copies the bytes of a segment, which are in the segments below it or beside it.
pub fn copy_segment(
    t: &&[u8],
    rules: Rules,
    on: LevelAt,
    from: BlockPosition,
    part: BufferPart,
    buffer: &mut [u8],
) -> Result<(), Refusal>
    requires { (SegmentAt t.now.now rules.pointers rules.record_size on.level on.b from.place.0 part.size)
        × (part.to + part.size ≤ max_text) × (part.to + part.size ≤ length buffer.old) }
    ensures { SegmentCopied t.now.now rules.pointers on.level from.block.0 from.place.0
        part.size part.to buffer.old buffer.new (result_refusal result) }
{
    let tree = *t;
    let shape = fields::shape_of(tree);
    if on.level == shape.levels {
        return copy_leaves(tree, from, part, buffer);
    }
    let block = from.block;
    let mut done: u32 = 0;
    // A `while`: how many bytes the next segment has is found in the loop's body, so there is no range to go over.
    while done < part.size {
        let place = BlockPlace(from.place.0 + done);
        let rest = BlockPosition { block, place };
        let found = segments::next_segment(tree, rules, on, rest, part.size - done);
        let Some(next) = found else {
            return Err(Refusal::PathBroken);
        };
        let piece = BufferPart {
            to: part.to + done,
            size: next.size,
        };
        let below = next.segment;
        copy_segment(t, below.rules, below.on, below.from, piece, buffer)?;
        done += next.size;
    }
    Ok(())
}
