// `get_type_specifier_token`.
ghost use Rattle.std.specs.Prelude.{◌≡◌};
ghost use Rattle.recognisers.specs.TypeSpecifier.{get_type_specifier_token};

use crate::scan::{exactly, first_among, token_of};
use crate::{Piece, TokenKind};

// The token before allows one, or there is none. Each first byte leaves one form.
#[inline(always)]
pub fn get_type_specifier_token(rest: &[u8], allowed: bool) -> Option<Piece>
    ensures { result ≡ get_type_specifier_token allowed rest.now }
{
    let first = first_among(rest, b":[")?;
    if !allowed {
        return None;
    }
    match first {
        b':' => token_of(TokenKind::TypeSpecifier, exactly(rest, b"::")),
        _ => token_of(TokenKind::TypeSpecifier, exactly(rest, b"[]")),
    }
}
