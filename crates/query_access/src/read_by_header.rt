// Byte, run and span in a tree that passes questions 5 to 7, given its header.
ghost use Rattle.std.specs.Prelude.{true, ◌&&◌, ◌≡◌, ◌+◌, ◌≤◌, ◌<◌, length, get_or, eqb, leb, Ok};
ghost use Rattle.format.specs.Answers.{replied, byte_answer, is_short, span_buffer, copy_buffer};
ghost use Rattle.layout.specs.HeaderFields.{HeaderOf};
ghost use Rattle.byte_slices.specs.ByteSlices.{bytes_written};
ghost use Rattle.query_access.specs.ReadAnswers.{byte_reply, IsRunAnswer, IsSpanAnswer};
ghost use Rattle.query_access.specs.ReadByRuns.{IsCopyAnswer, LeafRunOf, LeafRangeOf, ReadsFrom, IsRangeAnswer, RunCopied};

use crate::descent::BufferPart;
use crate::{descent, questions, short_copy};
use layout::header::Header;
use layout::place::{BlockNumber, BlockPlace, TextPlace};
use layout::settings::Settings;
use refusals::Refusal;
use walk_path::TopLevel;
use walk_ranges::leaf_end;
use walk_ranges::segments::Rules;
use walk_short::gather;
use walk_steps::position::{BlockPosition, LevelAt};

// A range of the bytes of the tree.
#[derive(Clone, Copy)]
pub struct TreeRange {
    pub from: usize,
    pub length: usize,
}

// The run of a place: where it is in the bytes of the tree, its length, and the number of blocks on the path of each of its places.
#[derive(Clone, Copy)]
pub struct LeafRun {
    pub from: usize,
    pub length: u32,
    pub entered: u32,
}

// No bytes, as a run.
pub fn no_run() -> LeafRun
    ensures length_value { result.length ≡ 0 }
    ensures from_value { result.from ≡ 0 }
{
    LeafRun {
        from: 0,
        length: 0,
        entered: 0,
    }
}

// Byte: questions 10 and 14.
pub fn byte_at(t: &[u8], h: Header, at: TextPlace) -> Result<(u8, u32), Refusal>
    requires { HeaderOf t.now h }
    ensures { replied (byte_reply result) ≡ byte_answer t.now at.0 }
{
    let run = questions::run_of_place(t, h, at)?;
    byte_on(t, run, 0)
}

// The figures of a header that a walk starts with.
fn top_level(h: Header) -> TopLevel
    ensures { result ≡ record { size = h.record_size; b = h.top_length } }
{
    TopLevel {
        size: h.record_size,
        b: h.top_length,
    }
}

// The run of a place of the text, bounded by the number of leaf bytes: question 14.
pub fn leaf_run(t: &&[u8], h: Header, at: TextPlace) -> Option<LeafRun>
    requires { (HeaderOf t.now.now h) × (at.0 < h.text_length) }
    ensures { LeafRunOf t.now.now at.0 result }
{
    let tree = *t;
    let word = walk_path::walk(t, top_level(h), at, h.text_length - at.0);
    let end = leaf_end::end_of(tree, h, at, word)?;
    let here = end.left.min(h.settings.leaf - end.place.0);
    Some(LeafRun {
        from: h.leaf_offset as usize + end.leaf as usize,
        length: here.min(h.leaf_count - end.leaf),
        entered: end.entered,
    })
}

// At most `most` bytes from a place of the text that are contiguous in the tree, found by one walk: its run, and the leaf bytes of the blocks that follow,
// inside every block above the last level. Question 14.
pub fn leaf_range(t: &&[u8], h: Header, at: TextPlace, most: u32) -> Option<LeafRun>
    requires { (HeaderOf t.now.now h) × (at.0 < h.text_length) × (1 ≤ most) }
    ensures { LeafRangeOf t.now.now at.0 most result }
{
    let tree = *t;
    let word = walk_path::walk(t, top_level(h), at, h.text_length - at.0);
    let end = leaf_end::end_of(tree, h, at, word)?;
    let within = end.left.min(most);
    let joined = leaf_end::joined(tree, h, end, within);
    let size = within.min(joined);
    Some(LeafRun {
        from: h.leaf_offset as usize + end.leaf as usize,
        length: size.min(h.leaf_count - end.leaf),
        entered: end.entered,
    })
}

// The answer of byte at the k-th place of a run, from 0.
fn byte_on(t: &[u8], run: LeafRun, k: usize) -> Result<(u8, u32), Refusal>
    requires { run.from + k < length t.now }
    ensures { result ≡ Ok (get_or t.now (run.from + k) 0, run.entered) }
{
    Ok((t[run.from + k], run.entered))
}

// Run: questions 10 and 14.
pub fn run_range_at(t: &[u8], h: Header, at: TextPlace) -> Result<TreeRange, Refusal>
    requires { HeaderOf t.now h }
    ensures { IsRunAnswer t.now at.0 result }
{
    let run = questions::run_of_place(t, h, at)?;
    Ok(TreeRange {
        from: run.from,
        length: run.length as usize,
    })
}

// As part_at, but beyond the end of the run as far as the bytes are contiguous, and at most `most` bytes.
pub fn range_at(t: &[u8], h: Header, at: TextPlace, most: u32) -> Result<TreeRange, Refusal>
    requires { (HeaderOf t.now h) × (at.0 < h.text_length) × (1 ≤ most) }
    ensures { IsRangeAnswer t.now at.0 most result }
{
    let found = leaf_range(&t, h, at, most);
    let Some(run) = found else {
        return Err(Refusal::PathBroken);
    };
    Ok(TreeRange {
        from: run.from,
        length: run.length as usize,
    })
}

// Spans of fewer bytes have few ranges: a walk for each takes less time than a descent.
const FEW: u32 = 64;

// Span: questions 10 and 13; then a short span of a layout 2 tree by edges, any other span by the paths of its bytes.
pub fn span_at(
    t: &[u8],
    h: Header,
    at: TextPlace,
    len: u32,
    buffer: &mut [u8],
) -> Result<(u32, u32), Refusal>
    requires { HeaderOf t.now h }
    ensures span_answer { IsSpanAnswer t.now at.0 len (length buffer.old) result }
    ensures buffer_after { buffer.new ≡ span_buffer t.now at.0 len buffer.old }
{
    let end = at.0 as u64 + len as u64;
    if (h.text_length as u64) < end {
        return Err(Refusal::PastTheEnd);
    }
    if buffer.len() < len as usize {
        return Err(Refusal::AnswerDoesNotFit);
    }
    if is_short(h, len) {
        return short_span(t, h, at, len, buffer);
    }
    if len < FEW {
        return copy_on(t, h, no_run(), at, len, buffer);
    }
    copy(t, h, at, len, buffer)
}

// Whether a span is short: 1 to m bytes of a layout 2 tree.
fn is_short(h: Header, len: u32) -> bool
    ensures { result ≡ (eqb h.layout 2 && leb 1 len && leb len h.settings.leaf) }
{
    if h.layout != Settings::EDGED {
        return false;
    }
    if len < 1 {
        return false;
    }
    len <= h.settings.leaf
}

// A short span: its bytes are in the tree in one range or two. If its walk breaks, `len` bytes of the buffer become zero.
fn short_span(
    t: &[u8],
    h: Header,
    at: TextPlace,
    len: u32,
    buffer: &mut [u8],
) -> Result<(u32, u32), Refusal>
    requires { (HeaderOf t.now h) × (at.0 + len ≤ h.text_length) × (len ≤ length buffer.old) × (is_short t.now len ≡ true) }
    ensures span_answer { IsSpanAnswer t.now at.0 len (length buffer.old) result }
    ensures buffer_after { buffer.new ≡ span_buffer t.now at.0 len buffer.old }
{
    let found = gather::from_text(t, h, at, len);
    let Some(q) = found else {
        byte_slices::clear(buffer, len as usize);
        return Err(Refusal::PathBroken);
    };
    let size = q.size as usize;
    short_copy::copy_short(buffer, 0, t, q.from, size);
    short_copy::copy_short(buffer, size, t, q.next, len as usize - size);
    Ok((len, q.entered))
}

// Copies the first n bytes of a range to a place in the buffer. Their answers are those of one walk, so that the loop over them is a copy.
pub fn copy_range(
    t: &[u8],
    run: LeafRun,
    n: u32,
    buffer: &mut [u8],
    to: usize,
) -> Result<(u32, u32), Refusal>
    requires { (run.from + n ≤ length t.now) × (to + n ≤ length buffer.old) }
    ensures value { result ≡ Ok (n, 0) }
    ensures buffer_after { buffer.new ≡ bytes_written buffer.old to t.now run.from n }
{
    for k in 0..n as usize {
        let answer = byte_on(t, run, k);
        let Ok((value, _)) = answer else {
            return Err(answer.unwrap_err());
        };
        buffer[to + k] = value;
    }
    Ok((n, 0))
}

// Copies some bytes from a place of the text, at most so many, to a place in the buffer, by one walk.
fn copy_run(
    t: &[u8],
    h: Header,
    at: TextPlace,
    most: u32,
    buffer: &mut [u8],
    to: usize,
) -> Result<(u32, u32), Refusal>
    requires { (HeaderOf t.now h) × (at.0 < h.text_length) × (1 ≤ most) × (to + most ≤ length buffer.old) }
    ensures { RunCopied t.now at.0 most to buffer.old buffer.new result }
{
    let found = leaf_range(&t, h, at, most);
    let Some(run) = found else {
        return Err(Refusal::PathBroken);
    };
    copy_range(t, run, run.length, buffer, to)
}

// Copies by one descent; where a byte is refused, the part asked for is left zero.
pub fn copy(
    t: &[u8],
    h: Header,
    at: TextPlace,
    len: u32,
    buffer: &mut [u8],
) -> Result<(u32, u32), Refusal>
    requires { (HeaderOf t.now h) × (at.0 + len ≤ h.text_length) × (len ≤ length buffer.old) }
    ensures copy_answer { IsCopyAnswer t.now at.0 len (length buffer.old) result }
    ensures buffer_after { buffer.new ≡ copy_buffer t.now at.0 len buffer.old }
{
    let copied = descent::copy_segment(
        &t,
        Rules {
            record_size: h.record_size,
            pointers: 1,
        },
        LevelAt {
            level: 0,
            b: h.top_length,
        },
        BlockPosition {
            block: BlockNumber(0),
            place: BlockPlace(at.0),
        },
        BufferPart { to: 0, size: len },
        buffer,
    );
    if let Err(refusal) = copied {
        byte_slices::clear(buffer, len as usize);
        return Err(refusal);
    }
    Ok((len, 0))
}

// The same range by range, each by a walk, where some of the first bytes, or none, are known to be a range of the tree.
pub fn copy_on(
    t: &[u8],
    h: Header,
    run: LeafRun,
    at: TextPlace,
    len: u32,
    buffer: &mut [u8],
) -> Result<(u32, u32), Refusal>
    requires { (HeaderOf t.now h) × (at.0 + len ≤ h.text_length) × (len ≤ length buffer.old) × (ReadsFrom t.now at.0 run) }
    ensures copy_answer { IsCopyAnswer t.now at.0 len (length buffer.old) result }
    ensures buffer_after { buffer.new ≡ copy_buffer t.now at.0 len buffer.old }
{
    let known = byte_slices::min(len, run.length);
    let first = copy_range(t, run, known, buffer, 0);
    let Ok((done, _)) = first else {
        byte_slices::clear(buffer, len as usize);
        return first;
    };
    let mut i: u32 = done;
    // A `while`: how many bytes a walk copies is found in the loop's body, so there is no range to go over.
    while i < len {
        let copied = copy_run(t, h, TextPlace(at.0 + i), len - i, buffer, i as usize);
        let Ok((n, _)) = copied else {
            byte_slices::clear(buffer, len as usize);
            return copied;
        };
        i += n;
    }
    Ok((len, 0))
}
