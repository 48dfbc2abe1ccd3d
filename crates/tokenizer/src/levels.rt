// How deep a token stands.
ghost use Rattle.std.specs.Prelude.{◌≡◌, ◌+◌, ◌^◌, ◌<◌};
ghost use Rattle.tokenizer.specs.Levels.{level_past};

use recognisers::TokenKind;

// The level past a token of this kind.
#[tactic(auto, unfolding(crate::specs::Levels::level_past))]
pub fn level_past(level: usize, kind: TokenKind) -> usize
    requires { level + 1 < 2 ^ 64 }
    ensures { result ≡ level_past level kind }
{
    match kind {
        TokenKind::OpenParen => level + 1,
        TokenKind::CloseParen => level.saturating_sub(1),
        _ => level,
    }
}
