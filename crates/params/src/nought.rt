// Whether a place nought may stand in a statement, by its bytes alone.
ghost use Rattle.std.specs.Prelude.{◌≡◌};
ghost use Rattle.params.specs.Inner.Noughts.{has_nought, may_hold_nought};

use crate::accepting::Filling;
use memchr::memmem;

// A `$` directly before a `0`. A text without `$` is passed in half the time.
#[tactic(auto, using(crate::proofs::Noughts::pair_found, crate::proofs::Noughts::no_mark))]
fn has_nought(text: &[u8]) -> bool
    ensures { result ≡ has_nought text.now }
{
    text.contains(&b'$') && memmem::find(text, b"$0").is_some()
}

#[tactic(auto, unfolding(crate::specs::Inner::Noughts::may_hold_nought))]
pub fn may_hold_nought(filling: Filling<'_>) -> bool
    ensures { result ≡ may_hold_nought filling.entry.search.text.now filling.entry.sheet.headed.bytes.now }
{
    filling.sheet.is_indexed() && has_nought(filling.search.text)
}
