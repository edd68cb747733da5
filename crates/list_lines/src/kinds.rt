// How many blocks of a level are kept, and how many point.
ghost use Rattle.std.specs.Prelude.{◌≡◌};
ghost use Rattle.text.specs.Text.{count_below};
ghost use Rattle.format.specs.Layout as at;
ghost use Rattle.list_lines.specs.LevelTable.{has_kind, Level};

use layout::place::BlockNumber;
use layout::record;

// How many blocks of a level have the given kind.
pub fn count_of(t: &[u8], size: u32, level: u32, kind: u32) -> u32
    requires { Level t.now size level }
    ensures { result ≡ count_below (at.level_count t.now level) (has_kind t.now level kind) }
{
    let count = record::level_count(t, level);
    let mut found: u32 = 0;
    for i in 0..count {
        if record::kind(t, size, level, BlockNumber(i)) == kind {
            found += 1;
        }
    }
    found
}
