// Gaps, and what they become.
ghost use Rattle.std.specs.Prelude.{◌≡◌, length};
ghost use Rattle.tight.specs.TightText.{is_gap, becomes, at_end, gap_bytes};
ghost use Rattle.tight.specs.Inner.Added.{outside, spacing_past};

use crate::returning::gap_after;
use crate::{Gap, Spacing};
use recognisers::TokenKind;
use tokenizer::{PlacedToken, Token};

#[tactic(auto, unfolding(crate::specs::TightText::is_gap))]
pub fn is_gap(token: Token) -> bool
    ensures { result ≡ is_gap token }
{
    token.kind == TokenKind::Whitespace
}

// Before the first token it becomes nothing.
fn gap_becomes(here: Option<TokenKind>, gap: &[u8]) -> Option<Gap>
    ensures { result ≡ becomes here gap.now }
{
    Some(gap_after(here?, gap))
}

// A return alone is kept. (By `filter` a reference would be asked, no plainer.)
pub fn gap_at_end(gap: Option<Gap>) -> Option<Gap>
    ensures { result ≡ at_end gap }
{
    match gap {
        Some(Gap::Return) => Some(Gap::Return),
        _ => None,
    }
}

pub fn gap_length(gap: Option<Gap>) -> usize
    ensures { result ≡ length (gap_bytes gap) }
{
    usize::from(gap.is_some())
}

// With a contract of its own, which a derived `default` has not.
pub fn before_first() -> Spacing
    ensures { result ≡ outside }
{
    Spacing::default()
}

#[tactic(auto, unfolding(crate::specs::Inner::Added::spacing_past))]
pub fn spacing_past(spacing: Spacing, token: PlacedToken<'_>) -> Spacing
    ensures { result ≡ spacing_past token.entry.statement.now spacing token.entry.token }
{
    let here = spacing.here;
    if is_gap(token.token) {
        return Spacing {
            here,
            lead: gap_becomes(here, token.text()),
        };
    }
    Spacing {
        here: Some(token.token.kind),
        lead: None,
    }
}
