// Count or find of a number above 255, which is not a byte, so no tree counts it.
ghost use Rattle.std.specs.Prelude.{◌≡◌, leb};
ghost use Rattle.format.specs.TreeReading.{ask};
ghost use Rattle.refusals.specs.Refusals.{refusal_number};
ghost use Rattle.query_rank.specs.Counts.{uncounted_refusal};

use layout::header;
use refusals::Refusal;

// Its refusal: 5 to 7, then 10 for a prefix of i bytes, then 11.
pub fn uncounted(t: &[u8], i: u32) -> Refusal
    ensures { refusal_number result ≡ uncounted_refusal t.now i }
{
    match header::read_header(t) {
        Ok(h) => past_or_uncounted(h.text_length, i),
        Err(refusal) => refusal,
    }
}

// Question 10 for a text of n bytes, then 11.
fn past_or_uncounted(n: u32, i: u32) -> Refusal
    ensures { refusal_number result ≡ ask 10 (leb i n) 11 }
{
    if n < i {
        return Refusal::PastTheEnd;
    }
    Refusal::ByteNotCounted
}
