// digest: the SHA-256 of the text of a tree, for any bytes given as a tree.
#![tactic(auto)]

ghost use Rattle.std.specs.Prelude.{◌≡◌, ◌+◌, ◌-◌, ◌≤◌, ◌<◌, length};
ghost use Rattle.layout.specs.HeaderFields.{HeaderOf};
ghost use Rattle.refusals.specs.Refusals.{result_refusal};
ghost use Rattle.query_digest.specs.Digest.{digest_refusal, digest_buffer};
ghost use Rattle.query_digest.specs.TextHashed.{hash_answer, PartRead, HashedUpTo};

use layout::header;
use layout::header::Header;
use layout::place::TextPlace;
use query_access::read_by_header;
use refusals::Refusal;
use sha256::HashState;

// The text is read in parts of this many bytes, whole blocks of SHA-256.
const PART: u32 = 1024;

const PART_BLOCKS: usize = 16;

// Writes the SHA-256 of the bytes that the tree's paths give to the first 32 bytes of `out`.
pub fn digest(t: &[u8], out: &mut [u8]) -> Result<(), Refusal>
    ensures value { result_refusal result ≡ digest_refusal t.now (length out.old) }
    ensures out_after { out.new ≡ digest_buffer t.now out.old }
{
    let h = header::read_header(t)?;
    digest_at(t, h, out)
}

// Zeros where a path breaks: a caller who ignores the refusal and compares finds no old digest in the buffer.
fn digest_at(t: &[u8], h: Header, out: &mut [u8]) -> Result<(), Refusal>
    requires { HeaderOf t.now h }
    ensures value { result_refusal result ≡ digest_refusal t.now (length out.old) }
    ensures out_after { out.new ≡ digest_buffer t.now out.old }
{
    if out.len() < 32 {
        return Err(Refusal::AnswerDoesNotFit);
    }
    let hashed = hash(t, h);
    let Some(value) = hashed else {
        byte_slices::clear(out, 32);
        return Err(Refusal::PathBroken);
    };
    sha256::write_state(value, out);
    Ok(())
}

// Hashes the text: the hash value of the whole text, none if the path of some place breaks. The array is made here and not in the loop's function, whose proof
// would carry its 1,024 entries.
fn hash(t: &[u8], h: Header) -> Option<HashState>
    requires { HeaderOf t.now h }
    ensures { result ≡ hash_answer t.now 0 }
{
    let mut part = [0u8; PART as usize];
    hash_parts(t, h, &mut part)
}

// Hashes the text part by part in the buffer `part`.
fn hash_parts(t: &[u8], h: Header, part: &mut [u8]) -> Option<HashState>
    requires { (HeaderOf t.now h) × (length part.old ≡ 1024) }
    ensures { result ≡ hash_answer t.now 0 }
{
    let mut s = sha256::initial_state();
    let parts = h.text_length / PART;
    for k in 0..parts {
        if !read_part(t, h, PART * k, PART, part) {
            return None;
        }
        s = sha256::hash_blocks(s, part, PART_BLOCKS);
    }
    last_part(t, h, PART * parts, s, part)
}

// Hashes the rest of the text from `at` on, less than a part, and the padding.
fn last_part(t: &[u8], h: Header, at: u32, s: HashState, part: &mut [u8]) -> Option<HashState>
    requires { (HeaderOf t.now h) × (HashedUpTo t.now at s) × (h.text_length - at ≤ length part.old) }
    ensures { result ≡ hash_answer t.now at }
{
    let left = h.text_length - at;
    if !read_part(t, h, at, left, part) {
        return None;
    }
    let end = left as usize;
    let n = end / 64;
    let from = 64 * n;
    let v = sha256::hash_blocks(s, part, n);
    Some(sha256::finalize(v, &part[from..end], h.text_length as u64))
}

// Reads `len` bytes of the text from `at` on to the start of `part`. Returns whether all their paths hold.
fn read_part(t: &[u8], h: Header, at: u32, len: u32, part: &mut [u8]) -> bool
    requires { (HeaderOf t.now h) × (at + len ≤ h.text_length) × (len ≤ length part.old) }
    ensures { PartRead t.now at len result part.new }
{
    let copied = read_by_header::copy(t, h, TextPlace(at), len, part);
    match copied {
        Ok(_) => true,
        Err(_) => false,
    }
}
