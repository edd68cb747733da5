// The header: questions 5 to 7.
ghost use Rattle.std.specs.Prelude.{◌≡◌, ◌||◌, ◌+◌, ◌-◌, ◌*◌, ◌^◌, ◌≤◌, ◌<◌, length, eqb};
ghost use Rattle.format.specs.Layout.{max_levels, max_counted, header_length, record_size};
ghost use Rattle.format.specs.SizeLaws.{max_record};
ghost use Rattle.layout.specs.Header.{header_answer, rest_right, spare_counted, spare_levels, tables_meet, HasSettings, settings_answer, fields_of};

use crate::settings::Settings;
use crate::{settings, word};
use refusals::Refusal;

// Offsets in the header. Six words and the bytes for counted bytes.
pub const LAYOUT_AT: usize = 0;

pub const TEXT_LENGTH_AT: usize = 4;

pub const LEAF_AT: usize = 8;

pub const ARITY_AT: usize = 12;

pub const LEVELS_AT: usize = 16;

pub const COUNTED_COUNT_AT: usize = 20;

pub const COUNTED_AT: usize = 24;

// The block count and the offset of each possible level.
pub const COUNTS_AT: usize = COUNTED_AT + Settings::MAX_COUNTED;

pub const OFFSETS_AT: usize = COUNTS_AT + 4;

pub const PAIR: usize = 8;

// The two words for the leaf bytes, and the first record after them.
const LEVELS: usize = Settings::MAX_LEVELS as usize;

pub const LEAF_OFFSET_AT: usize = COUNTS_AT + PAIR * LEVELS;

pub const LEAF_COUNT_AT: usize = LEAF_OFFSET_AT + 4;

pub const HEADER_LENGTH: usize = LEAF_COUNT_AT + 4;

const FIRST_RECORD_AT: u64 = HEADER_LENGTH as u64;

// The header of a tree. The counts and offsets of the levels remain in the tree and are read from it.
#[derive(Clone, Copy)]
pub struct Header {
    // The layout: 1, or 2 for records with edges.
    pub layout: u32,
    // n, the length of the text.
    pub text_length: u32,
    pub settings: Settings,
    // The offset and the number of the leaf bytes.
    pub leaf_offset: u32,
    pub leaf_count: u32,
    // The block length of level 0.
    pub top_length: u32,
    // The number of bytes of a record.
    pub record_size: u32,
}

// The header of any bytes, or the first of the questions 5, 6 and 7 that fails.
pub fn read_header(t: &[u8]) -> Result<Header, Refusal>
    ensures { result ≡ header_answer t.now }
{
    if t.len() < HEADER_LENGTH {
        return Err(Refusal::TreeTooShort);
    }
    if !known(word::read(t, LAYOUT_AT)) {
        return Err(Refusal::UnknownLayout);
    }
    let settings = header_settings(t)?;
    let h = fields(t, settings);
    if !rest_right(t, h) {
        return Err(Refusal::HeaderWrong);
    }
    Ok(h)
}

// The layouts that are read.
fn known(layout: u32) -> bool
    ensures { result ≡ (eqb layout 1 || eqb layout 2) }
{
    if layout == Settings::PLAIN {
        return true;
    }
    layout == Settings::EDGED
}

// The header with the given settings, the block length of level 0 and the size of a record.
fn fields(t: &[u8], settings: Settings) -> Header
    requires { HasSettings t.now settings }
    ensures { result ≡ fields_of t.now }
{
    let layout = word::read(t, LAYOUT_AT);
    Header {
        layout,
        text_length: word::read(t, TEXT_LENGTH_AT),
        settings,
        leaf_offset: word::read(t, LEAF_OFFSET_AT),
        leaf_count: word::read(t, LEAF_COUNT_AT),
        top_length: settings.block_length(0),
        record_size: settings.record_size(layout),
    }
}

// The first conditions of question 7: the length of the text and the settings, if they are within their bounds.
fn header_settings(t: &[u8]) -> Result<Settings, Refusal>
    requires { header_length ≤ length t.now }
    ensures { result ≡ settings_answer t.now }
{
    let n = word::read(t, TEXT_LENGTH_AT);
    if Settings::MAX_TEXT < n {
        return Err(Refusal::HeaderWrong);
    }
    let k = word::read(t, COUNTED_COUNT_AT) as usize;
    if Settings::MAX_COUNTED < k {
        return Err(Refusal::HeaderWrong);
    }
    let end = COUNTED_AT + k;
    let checked = Settings::new(
        word::read(t, LEAF_AT),
        word::read(t, ARITY_AT),
        word::read(t, LEVELS_AT),
        &t[COUNTED_AT..end],
    );
    let Ok(settings) = checked else {
        return Err(Refusal::HeaderWrong);
    };
    Ok(settings)
}

// The other conditions of question 7: unused places, the block count of level 0, offsets, and the length.
fn rest_right(t: &[u8], h: Header) -> bool
    requires { (HasSettings t.now h.settings) × (h ≡ fields_of t.now) }
    ensures { result ≡ rest_right t.now }
{
    if !spare_counted_zero(t, h.settings.counted as usize) {
        return false;
    }
    if !spare_levels_zero(t, h.settings.levels as usize) {
        return false;
    }
    let count = word::read(t, COUNTS_AT);
    if count != settings::pieces(h.text_length, h.top_length) {
        return false;
    }
    if !tables_meet(t, h.settings.levels as usize, h.record_size) {
        return false;
    }
    t.len() as u64 == h.leaf_offset as u64 + h.leaf_count as u64
}

// The unused places for counted bytes are zero: exactly then the word of all places is below 256^k.
fn spare_counted_zero(t: &[u8], k: usize) -> bool
    requires { (header_length ≤ length t.now) × (k ≤ max_counted) }
    ensures { result ≡ spare_counted t.now k }
{
    (word::read(t, COUNTED_AT) as u64) < (1u64 << (8 * k as u32))
}

// The counts and offsets of unused levels are zero. Both words of a level are compared at once.
fn spare_levels_zero(t: &[u8], levels: usize) -> bool
    requires { (header_length ≤ length t.now) × (levels ≤ max_levels) }
    ensures { result ≡ spare_levels t.now levels }
{
    for level in levels..LEVELS {
        let count = word::read(t, COUNTS_AT + PAIR * level) as u64;
        let offset = word::read(t, OFFSETS_AT + PAIR * level) as u64;
        if count + 4294967296 * offset != 0 {
            return false;
        }
    }
    true
}

// The tables are adjacent: header, records of level 0 and of each further level, leaf bytes.
fn tables_meet(t: &[u8], levels: usize, size: u32) -> bool
    requires { (header_length ≤ length t.now) × (levels ≤ max_levels) × (size ≡ record_size t.now) × (size ≤ max_record) }
    ensures { result ≡ tables_meet t.now levels }
{
    let mut end: u64 = FIRST_RECORD_AT;
    for l in 0..levels {
        let offset = word::read(t, OFFSETS_AT + PAIR * l) as u64;
        if offset != end {
            return false;
        }
        end = end + table_bytes(word::read(t, COUNTS_AT + PAIR * l), size);
    }
    word::read(t, LEAF_OFFSET_AT) as u64 == end
}

// The number of bytes of `count` records.
pub fn table_bytes(count: u32, size: u32) -> u64
    requires { size ≤ max_record }
    ensures { (result ≡ count * size) × (result ≤ 2 ^ 32 * max_record) }
{
    count as u64 * size as u64
}
