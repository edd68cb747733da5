// Occurrences in the text; only the contract of the search is used.
ghost use Rattle.std.specs.Prelude.{◌≡◌};
ghost use Rattle.theory_built.specs.BuiltTargets.{place_of};
ghost use Rattle.build_records.specs.State.{record_settings_of, BlockNext};
ghost use Rattle.search.specs.Occurrences.{occurs_earlier_answer};

use build_records::level_written;
use build_records::level_written::Level;
use layout::place::BlockNumber;
use search::Fingerprint;
use text::TextPlace;

// Any base and modulus give the same tree. This function promises nothing, so the proofs about marking hold for all of them.
fn fingerprint() -> Fingerprint {
    Fingerprint::new(257, 2147483647)
}

// Where the bytes of a block first occur.
pub fn first_place(
    text: &[u8],
    counted: &[u8],
    out: &[u8],
    level: Level,
    i: BlockNumber,
) -> TextPlace
    requires { BlockNext (record_settings_of level.settings counted.now) text.now out.now level i.0 }
    ensures { result.0 ≡ place_of (record_settings_of level.settings counted.now) text.now level.number i.0 }
{
    let own = level_written::substring_of(text, counted, out, level, i);
    search::leftmost(text, own.start, own.length, fingerprint()).unwrap_or(own.start)
}

// Whether the bytes at a place occur earlier.
pub fn occurs_earlier(text: &[u8], start: TextPlace, len: u32) -> bool
    ensures { result ≡ occurs_earlier_answer text.now start.0 len }
{
    search::occurs_earlier(text, start, len, fingerprint())
}
