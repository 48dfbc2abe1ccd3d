// Tokens made.
ghost use Rattle.std.specs.Prelude.{◌≡◌, None};
ghost use Rattle.recognisers.specs.Pieces.{piece};

use crate::{Piece, TokenKind};

impl Piece {
    // Whose alias is its value, without key and escaped quotes.
    #[inline(always)]
    pub fn of(kind: TokenKind, len: usize) -> Self
        ensures { result ≡ piece kind len None }
    {
        Piece {
            kind: kind,
            len: len,
            alias: len,
            key: None,
            escaped: 0,
        }
    }
}
