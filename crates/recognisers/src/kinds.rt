// The kinds of tokens, numbered.
ghost use Rattle.std.specs.Prelude.{◌≡◌};
ghost use Rattle.recognisers.specs.Kinds.{kind_number};

use crate::TokenKind;

// A `From` would say the same `as` under the same contract, and be no plainer.
pub fn kind_number(kind: TokenKind) -> u64
    ensures { result ≡ kind_number kind }
{
    kind as u64
}
