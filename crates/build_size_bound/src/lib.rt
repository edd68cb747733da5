// The size bound of the trees of all texts of a length, with given settings.
#![tactic(auto)]

ghost use Rattle.std.specs.Prelude.{◌≡◌, ◌*◌, ◌≤◌};
ghost use Rattle.layout.specs.SettingsLevel.{Sized};
ghost use Rattle.build_size_bound.specs.SizeBound.{blocks_at_most, IsSizeBoundAnswer};
ghost use Rattle.format.specs.Layout.{max_text, max_levels};

use layout::settings::Settings;
use layout::{header, settings};
use refusals::Refusal;

const HEADER: u64 = header::HEADER_LENGTH as u64;

// The size bound of the tree of every text of n bytes, in bytes, or the refusal of the length or the settings.
pub fn size_bound(n: u32, leaf: u32, arity: u32, levels: u32, counted: u32) -> Result<u64, Refusal>
    ensures { IsSizeBoundAnswer n leaf arity levels counted result }
{
    if Settings::MAX_TEXT < n {
        return Err(Refusal::TextTooLong);
    }
    let s = Settings::new(leaf, arity, levels, b"")?;
    if Settings::MAX_COUNTED < counted as usize {
        return Err(Refusal::CountedBytesWrong);
    }
    let whole = Settings {
        leaf: s.leaf,
        arity: s.arity,
        levels: s.levels,
        counted,
    };
    let size = whole.record_size(Settings::EDGED) as u64;
    Ok(HEADER + n as u64 + size * blocks(n, s))
}

// The number of blocks of all levels if each level covers the whole text.
fn blocks(n: u32, s: Settings) -> u64
    requires { Sized s 0 × (1 ≤ s.leaf) × (n ≤ max_text) }
    ensures { (result ≡ blocks_at_most n s.leaf s.arity s.levels) × (result ≤ max_levels * (2 * max_text)) }
{
    let mut sum: u64 = 0;
    for l in 0..s.levels {
        sum += u64::from(settings::pieces(n, s.block_length(l)));
    }
    sum
}
