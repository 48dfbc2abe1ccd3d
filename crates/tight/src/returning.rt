// The two sorts of a gap, and what a gap becomes by its sort.
ghost use Rattle.std.specs.Prelude.{◌≡◌};
ghost use Rattle.tight.specs.Returning.{returns};
ghost use Rattle.tight.specs.TightText.{gap_after};

use crate::Gap;
use recognisers::{TokenKind, till_line_ending};

// The first CR or LF is a CR without LF, at which a line comment is refused.
#[tactic(auto, using(crate::proofs::LineComments::none_returns))]
fn is_returning(gap: &[u8]) -> bool
    ensures { result ≡ returns gap.now }
{
    till_line_ending(gap).is_none()
}

#[tactic(auto, unfolding(crate::specs::TightText::gap_after))]
pub fn gap_after(kind: TokenKind, gap: &[u8]) -> Gap
    ensures { result ≡ gap_after kind gap.now }
{
    if kind == TokenKind::LineComment {
        return Gap::LineFeed;
    }
    if is_returning(gap) {
        return Gap::Return;
    }
    Gap::Space
}
