// White_Space: rustc's, Unicode 17.0.0. Made by tools/tables.rs.
ghost use Rattle.std.specs.Prelude.{◌≡◌};
ghost use Rattle.characters.specs.Ranges.{in_ranges};
ghost use Rattle.characters.specs.WhiteSpace.{white_space};

use crate::ranges::in_ranges;

// Each range is its first and its last code point.
const RANGES: [(u32, u32); 10] = [
    (0x0009, 0x000D),
    (0x0020, 0x0020),
    (0x0085, 0x0085),
    (0x00A0, 0x00A0),
    (0x1680, 0x1680),
    (0x2000, 0x200A),
    (0x2028, 0x2029),
    (0x202F, 0x202F),
    (0x205F, 0x205F),
    (0x3000, 0x3000),
];

pub fn contains(c: u32) -> bool
    ensures { result ≡ in_ranges white_space c }
{
    in_ranges(&RANGES, c)
}
