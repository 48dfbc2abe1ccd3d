// One range of code points, and lookup in several.
ghost use Rattle.std.specs.Prelude.{◌≡◌, true};
ghost use Rattle.characters.specs.Ranges.{within, in_ranges, ordered};

#[tactic(auto, unfolding(crate::specs::Ranges::within))]
pub fn within(first: u32, last: u32, c: u32) -> bool
    ensures { result ≡ within first last c }
{
    first <= c && c <= last
}

// c lies in one of the ranges, which are in order.
pub fn in_ranges(ranges: &[(u32, u32)], c: u32) -> bool
    ensures { ordered 0 ranges.now ≡ true → result ≡ in_ranges ranges.now c }
{
    let reached = ranges.partition_point(|&(_, last)| last < c);
    reached < ranges.len() && ranges[reached].0 <= c
}
