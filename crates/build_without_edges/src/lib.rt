// Writes a tree in layout 1, without its edges, into a buffer of the caller.
#![tactic(auto)]

ghost use Rattle.std.specs.Prelude.{◌++◌, ◌≡◌, ◌+◌, ◌-◌, ◌*◌, ◌/◌, ◌≤◌, ◌<◌, length, take, drop};
ghost use Rattle.text.specs.Text.{tabulate, concat};
ghost use Rattle.format.specs.Answers.{replied};
ghost use Rattle.format.specs.Layout.{header_length};
ghost use Rattle.layout.specs.HeaderFields.{HeaderOf};
ghost use Rattle.theory_without_edges.specs.WithoutEdges.{AllBytes, layout1_record_size, offsets_in, layout1_header, layout1_record, without_edges};
ghost use Rattle.build_without_edges.specs.WithoutEdgesAnswers.{without_edges_refusal, without_edges_size, without_edges_buffer, without_edges_reply};
ghost use Rattle.build_without_edges.specs.WithoutEdgesState.{ReadableSizes, HeaderRoom, RecordRoom, WholeRoom};

use layout::header::Header;
use layout::settings::Settings;
use layout::{header, record, word};
use refusals::Refusal;

const FIRST_RECORD_AT: u32 = header::HEADER_LENGTH as u32;

// Writes a tree in layout 1 to the start of a buffer, and returns its size. Any bytes may be given as a tree: questions 5 to 7 come
// first, then 13. If the call is refused, the buffer is unchanged. A tree of layout 1 is copied.
pub fn without_edges(tree: &[u8], out: &mut [u8]) -> Result<usize, Refusal>
    ensures refusal { (replied (without_edges_reply result)).number ≡ without_edges_refusal tree.now out.old }
    ensures size { (replied (without_edges_reply result)).value ≡ without_edges_size tree.now out.old }
    ensures buffer { out.new ≡ without_edges_buffer tree.now out.old }
    ensures bytes { AllBytes tree.now }
{
    let h = header::read_header(tree)?;
    by_header(tree, h, out)
}

// Checks question 13 with the header at hand, then writes.
fn by_header(tree: &[u8], h: Header, out: &mut [u8]) -> Result<usize, Refusal>
    requires { HeaderOf tree.now h }
    ensures result_value { (replied (without_edges_reply result)).number ≡ without_edges_refusal tree.now out.old }
    ensures result_value_2 { (replied (without_edges_reply result)).value ≡ without_edges_size tree.now out.old }
    ensures out_after { out.new ≡ without_edges_buffer tree.now out.old }
{
    let stride = h.settings.record_size(Settings::PLAIN);
    let count = records_between(h.leaf_offset, h.record_size);
    let size = header::HEADER_LENGTH
        + header::table_bytes(count, stride) as usize
        + h.leaf_count as usize;
    if out.len() < size {
        return Err(Refusal::AnswerDoesNotFit);
    }
    write_all(tree, h, stride, count, out);
    Ok(size)
}

// How many records of `size` bytes lie between the header and the leaf bytes, which begin at `end`.
fn records_between(end: u32, size: u32) -> u32
    requires { (header_length ≤ end) × (0 < size) }
    ensures { (result ≡ (end - header_length) / size) × (end < 4294967296) }
{
    (end - FIRST_RECORD_AT) / size
}

// Writes header, records and leaf bytes; the buffer is large enough.
fn write_all(tree: &[u8], h: Header, stride: u32, count: u32, out: &mut [u8])
    requires { WholeRoom tree.now h stride count out.old }
    ensures { out.new ≡ without_edges tree.now ++ drop (length (without_edges tree.now)) out.old }
{
    let leaves = FIRST_RECORD_AT + count * stride;
    put_header(tree, h.settings.levels, stride, leaves, out);
    put_records(tree, count, h.record_size, stride, out);
    byte_slices::copy(
        out,
        leaves as usize,
        tree,
        h.leaf_offset as usize,
        h.leaf_count as usize,
    );
}

// Copies the header, then overwrites its layout word and its offsets.
fn put_header(tree: &[u8], levels: u32, stride: u32, leaves: u32, out: &mut [u8])
    requires { HeaderRoom tree.now levels stride leaves out.old }
    ensures { out.new ≡ layout1_header tree.now ++ drop header_length out.old }
{
    byte_slices::copy(out, 0, tree, 0, header::HEADER_LENGTH);
    word::write(out, header::LAYOUT_AT, Settings::PLAIN);
    put_offsets(tree, levels, stride, out);
    word::write(out, header::LEAF_OFFSET_AT, leaves);
}

// Overwrites the offset of each level; a record takes `stride` bytes.
fn put_offsets(tree: &[u8], levels: u32, stride: u32, out: &mut [u8])
    requires { ReadableSizes tree.now levels stride × (header_length ≤ length out.old) }
    ensures { out.new ≡ offsets_in tree.now levels out.old }
{
    let mut at: u32 = FIRST_RECORD_AT;
    for l in 0..levels {
        word::write(out, header::OFFSETS_AT + header::PAIR * l as usize, at);
        at += record::level_count(tree, l) * stride;
    }
}

// Copies the first `stride` of the `size` bytes of every record, one after the other.
fn put_records(tree: &[u8], count: u32, size: u32, stride: u32, out: &mut [u8])
    requires { RecordRoom tree.now count size stride out.old }
    ensures { out.new ≡ take header_length out.old ++ concat (tabulate count (layout1_record tree.now))
        ++ drop (header_length + count * layout1_record_size tree.now) out.old }
{
    let from = size as usize;
    let to = stride as usize;
    for j in 0..count as usize {
        byte_slices::copy(
            out,
            header::HEADER_LENGTH + j * to,
            tree,
            header::HEADER_LENGTH + j * from,
            to,
        );
    }
}
