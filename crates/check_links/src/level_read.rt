// The figures of a level that its blocks are checked against.
ghost use Rattle.std.specs.Prelude.{◌≡◌, ◌<◌};
ghost use Rattle.format.specs.Layout as at;
ghost use Rattle.layout.specs.HeaderFields.{HeaderOf};
ghost use Rattle.check_links.specs.LevelAsked.{LevelOf, length_of_part, room_below};

use layout::header::Header;
use layout::{record, settings};

// The figures of a level.
#[derive(Clone, Copy)]
pub struct Level {
    pub number: u32,
    // The number of the last level.
    pub last: u32,
    // The number of bytes of a record.
    pub size: u32,
    // n, the length of the text.
    pub length: u32,
    // The number of blocks of the level.
    pub count: u32,
    // The block length of the level.
    pub full: u32,
    // The block length of the next level; 1 on the last level, whose blocks have leaf bytes.
    pub part: u32,
    // The number of children, or of leaf bytes, of a full block.
    pub most: u32,
    // The number of blocks of the next level, or of leaf bytes.
    pub room: u32,
}

// The level with the given number, whose full blocks have the given length.
pub fn level_of(t: &[u8], h: Header, number: u32, full: u32) -> Level
    requires { HeaderOf t.now h × (number < h.settings.levels) × (full ≡ at.full_length t.now number) }
    ensures { LevelOf t.now result × (result.number ≡ number) }
{
    let part = part_length(t, h, number, full);
    Level {
        number,
        last: h.settings.levels - 1,
        size: h.record_size,
        length: h.text_length,
        count: record::level_count(t, number),
        full,
        part,
        most: settings::pieces(full, part),
        room: room_below(t, h, number),
    }
}

fn part_length(t: &[u8], h: Header, number: u32, full: u32) -> u32
    requires { HeaderOf t.now h × (number < h.settings.levels) × (full ≡ at.full_length t.now number) }
    ensures { result ≡ length_of_part t.now number }
{
    if number == h.settings.levels - 1 {
        return 1;
    }
    full / h.settings.arity
}

fn room_below(t: &[u8], h: Header, number: u32) -> u32
    requires { HeaderOf t.now h × (number < h.settings.levels) }
    ensures { result ≡ room_below t.now number }
{
    if number == h.settings.levels - 1 {
        return h.leaf_count;
    }
    record::level_count(t, number + 1)
}
