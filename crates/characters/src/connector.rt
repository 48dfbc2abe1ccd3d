// Connector punctuation: the category Pc: those of the crate unicode_categories 0.1.1. Made by tools/tables.rs.
ghost use Rattle.std.specs.Prelude.{◌≡◌};
ghost use Rattle.characters.specs.Ranges.{in_ranges};
ghost use Rattle.characters.specs.Connector.{connector};

use crate::ranges::in_ranges;

// Each range is its first and its last code point.
const RANGES: [(u32, u32); 6] = [
    (0x005F, 0x005F),
    (0x203F, 0x2040),
    (0x2054, 0x2054),
    (0xFE33, 0xFE34),
    (0xFE4D, 0xFE4F),
    (0xFF3F, 0xFF3F),
];

pub fn contains(c: u32) -> bool
    ensures { result ≡ in_ranges connector c }
{
    in_ranges(&RANGES, c)
}
