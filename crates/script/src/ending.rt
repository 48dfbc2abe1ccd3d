// Where parts end, told token by token.
ghost use Rattle.std.specs.Prelude.{◌≡◌};
ghost use Rattle.script.specs.Cuts.{is_cut};
ghost use Rattle.script.specs.Inner.Ended.{ends_part, start_past};

use recognisers::TokenKind;
use tokenizer::PlacedToken;

#[tactic(auto, unfolding(crate::specs::Cuts::is_cut), using(recognisers::proofs::LibraryWords::equal))]
fn is_cut(token: PlacedToken<'_>) -> bool
    ensures { result ≡ is_cut token.entry.statement.now token.entry.token }
{
    token.token.kind == TokenKind::Operator && token.text() == b";".as_slice()
}

// The last token ends a part too: what is left behind the last `;`.
#[tactic(auto, unfolding(crate::specs::Inner::Ended::ends_part))]
pub fn ends_part(token: PlacedToken<'_>) -> bool
    ensures { result ≡ ends_part token.entry.statement.now token.entry.token }
{
    is_cut(token) || token.end() == token.statement.len()
}

// Where the part starts that the next token belongs to.
#[tactic(auto, unfolding(crate::specs::Inner::Ended::start_past))]
pub fn start_past(from: usize, token: PlacedToken<'_>) -> usize
    ensures { result ≡ start_past token.entry.statement.now from token.entry.token }
{
    if ends_part(token) {
        return token.end();
    }
    from
}
