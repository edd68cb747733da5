// The figures of a tree that a caller needs before reading its text: those of the header, and the totals of the counted bytes; and the version of the
// library.
#![tactic(auto)]

ghost use Rattle.std.specs.Prelude.{◌≡◌, ◌≤◌, ◌<◌, length};
ghost use Rattle.text.specs.Text.{tabulate};
ghost use Rattle.format.specs.Layout.{max_levels, max_counted, header_length};
ghost use Rattle.format.specs.Layout as at;
ghost use Rattle.format.specs.TreeReading.{header_result};
ghost use Rattle.layout.specs.HeaderFields.{HeaderOf};
ghost use Rattle.refusals.specs.Refusals.{result_refusal};
ghost use Rattle.query_info.specs.Info.{counted_byte, total_of, figures_of, info_buffer, version_number};

use layout::header::Header;
use layout::settings::Settings;
use layout::{header, record};
use refusals::Refusal;

// The number of figures.
pub const FIGURES: usize = PLAIN + 2 * Settings::MAX_COUNTED + LEVELS;

// The number of figures before the counted bytes, which are in the header.
const PLAIN: usize = 7;

const LEVELS: usize = Settings::MAX_LEVELS as usize;

// The version. It changes with every change of what a call returns.
pub const MAJOR: u32 = 2;

pub const MINOR: u32 = 1;

pub const PATCH: u32 = 1;

// The version as one number.
pub fn version() -> u32
    ensures { result ≡ version_number }
{
    10000 * MAJOR + 100 * MINOR + PATCH
}

// Writes the figures of a tree in order. Any bytes may be given as a tree: questions 5 to 7. If refused, every figure is 0.
pub fn info(t: &[u8], figures: &mut [u64; FIGURES]) -> Result<(), Refusal>
    ensures value { result_refusal result ≡ header_result t.now }
    ensures figures_after { figures.new ≡ info_buffer t.now }
{
    let read = header::read_header(t);
    match read {
        Ok(h) => {
            *figures = figures_of(t, h);
            Ok(())
        }
        Err(refusal) => {
            *figures = [0; FIGURES];
            Err(refusal)
        }
    }
}

// The figures of a tree that passes questions 5 to 7, given its header.
fn figures_of(t: &[u8], h: Header) -> [u64; FIGURES]
    requires { HeaderOf t.now h }
    ensures { result ≡ figures_of t.now }
{
    let bytes = counted_bytes(t);
    let totals = totals(t, h);
    let blocks = level_counts(t);
    [
        h.layout as u64,
        h.text_length as u64,
        h.settings.leaf as u64,
        h.settings.arity as u64,
        h.settings.levels as u64,
        h.leaf_count as u64,
        h.settings.counted as u64,
        bytes[0],
        bytes[1],
        bytes[2],
        bytes[3],
        totals[0],
        totals[1],
        totals[2],
        totals[3],
        blocks[0],
        blocks[1],
        blocks[2],
        blocks[3],
        blocks[4],
        blocks[5],
        blocks[6],
        blocks[7],
    ]
}

// The places for counted bytes.
const FIRST: usize = header::COUNTED_AT;

const SECOND: usize = FIRST + 1;

const THIRD: usize = FIRST + 2;

const FOURTH: usize = FIRST + 3;

// The counted bytes in order, then zeros, as in the header.
fn counted_bytes(t: &[u8]) -> [u64; Settings::MAX_COUNTED]
    requires { header_length ≤ length t.now }
    ensures { result ≡ tabulate max_counted (counted_byte t.now) }
{
    [
        wide(t[FIRST]),
        wide(t[SECOND]),
        wide(t[THIRD]),
        wide(t[FOURTH]),
    ]
}

fn wide(byte: u8) -> u64
    ensures { result ≡ byte }
{
    byte as u64
}

// How often each counted byte occurs in the text, by the totals of the tree, then zeros.
fn totals(t: &[u8], h: Header) -> [u64; Settings::MAX_COUNTED]
    requires { HeaderOf t.now h }
    ensures { result ≡ tabulate max_counted (total_of t.now) }
{
    [
        total_of(t, h, 0),
        total_of(t, h, 1),
        total_of(t, h, 2),
        total_of(t, h, 3),
    ]
}

// The total of counted byte number c, 0 if there are fewer.
fn total_of(t: &[u8], h: Header, c: u32) -> u64
    requires { HeaderOf t.now h }
    ensures { result ≡ total_of t.now c }
{
    if h.settings.counted <= c {
        return 0;
    }
    query_counted::total(t, h, c)
}

// The number of blocks of each level, then zeros, as in the header.
fn level_counts(t: &[u8]) -> [u64; LEVELS]
    requires { header_length ≤ length t.now }
    ensures { result ≡ tabulate max_levels (at.level_count t.now) }
{
    [
        blocks(t, 0),
        blocks(t, 1),
        blocks(t, 2),
        blocks(t, 3),
        blocks(t, 4),
        blocks(t, 5),
        blocks(t, 6),
        blocks(t, 7),
    ]
}

fn blocks(t: &[u8], level: u32) -> u64
    requires { (header_length ≤ length t.now) × (level < max_levels) }
    ensures { result ≡ at.level_count t.now level }
{
    record::level_count(t, level) as u64
}
