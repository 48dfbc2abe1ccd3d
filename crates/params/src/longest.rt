// The most that a filled text can have, known before the statement is read.
ghost use Rattle.std.specs.Prelude.{◌≡◌};
ghost use Rattle.params.specs.Inner.Longest.{longest_value, most_filled};

use crate::accepting::Filling;
use crate::parts::part_length;
use crate::sheet::Sheet;

// The length of the longest value, and 1 where none is longer: one look at each entry.
fn longest_value(sheet: Sheet<'_>) -> usize
    ensures { result ≡ longest_value sheet.entry.headed.bytes.now }
{
    sheet
        .entries()
        .fold(1, |longest, entry| longest.max(part_length(entry.value)))
}

// Each token has a byte at least, and what stands for it is no longer than the token or than the longest value.
#[tactic(auto, using(crate::proofs::FilledShort::most_fits, crate::proofs::FilledShort::most_is))]
pub fn most_filled(filling: Filling<'_>) -> usize
    ensures { result ≡ most_filled filling.entry.search.text.now filling.entry.sheet.headed.bytes.now }
{
    filling.search.text.len() * longest_value(filling.sheet)
}
