// How the table is divided for a level.
ghost use Rattle.std.specs.Prelude.{◌≡◌, ◌+◌, ◌*◌, ◌≤◌, length};
ghost use Rattle.format.specs.Layout.{max_text, pieces, max_leaf, max_counted};
ghost use Rattle.format.specs.Blocks.{record_bytes};
ghost use Rattle.build_records.specs.State.{record_settings_of};
ghost use Rattle.build_by_scan.specs.ItemTable.{items_of};

use build_records::level_written;
use build_records::level_written::Level;
use layout::settings;
use scan_hash_table::Items;

// The items of a level. With more than 16 heads for an item they would only spread over more memory.
pub fn items_of(text: &[u8], counted: &[u8], level: Level, seed: u32) -> Items
    requires { (length counted.now ≤ max_counted)
        × (1 ≤ level.count) × (1 ≤ level.settings.leaf) × (level.settings.leaf ≤ max_leaf) × (length text.now ≤ max_text)
        × (level.count + level.count ≤ pieces (length text.now) level.settings.leaf + 1) }
    ensures { result ≡ items_of (length text.now) (record_bytes (record_settings_of level.settings counted.now)) level seed }
{
    let items = level.count + level.count - 1;
    let words = 4 * settings::pieces(text.len() as u32, level.settings.leaf);
    Items {
        records: level.table,
        step: level_written::record_size(counted, level.settings) as u32,
        size: level.size,
        items,
        heads: byte_slices::min(words - 3 * items, 16 * items),
        seed,
    }
}

// The seed of the fingerprints: the first word of the table at entry. A caller who fills it at random makes the fingerprints unpredictable. A table of zeros
// gives a seed whose base is not small.
pub fn seed_of(words: &[u32]) -> u32 {
    if words.len() == 0 {
        return 1540483477;
    }
    words[0] ^ 1540483477
}
