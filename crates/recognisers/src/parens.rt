// `get_open_paren_token` and `get_close_paren_token`.
ghost use Rattle.std.specs.Prelude.{◌≡◌};
ghost use Rattle.recognisers.specs.Text.{bytes};
ghost use Rattle.recognisers.specs.Taking.{or, done, literal, caseless, blanks, end_of_word};
ghost use Rattle.recognisers.specs.Parens.{in_postgre_sql, get_open_paren_token, get_close_paren_token};

use crate::scan::{behind_caseless, caseless_word, exactly, first_among, token_of};
use crate::{Dialect, Piece, TokenKind};
use characters::Class;

// A square bracket is a paren in PostgreSql alone.
fn square(rest: &[u8], bracket: &[u8], dialect: Dialect) -> Option<usize>
    ensures { result ≡ in_postgre_sql dialect (literal bracket.now done) rest.now }
{
    if dialect == Dialect::PostgreSql {
        return exactly(rest, bracket);
    }
    None
}

// Each first byte leaves one form.
#[inline(always)]
pub fn get_open_paren_token(rest: &[u8], dialect: Dialect) -> Option<Piece>
    ensures { result ≡ get_open_paren_token dialect rest.now }
{
    let first = first_among(rest, b"([Cc")?;
    let n = match first {
        b'(' => Some(1),
        b'[' => square(rest, b"[", dialect),
        _ => caseless_word(rest, b"CASE"),
    };
    token_of(TokenKind::OpenParen, n)
}

// Whitespace, one character at least, and then a word in capitals.
fn blanks_then_word(rest: &[u8], word: &[u8]) -> Option<usize>
    ensures { result ≡ blanks (caseless word.now end_of_word) rest.now }
{
    let n = characters::run_of(rest, Class::Whitespace);
    if n == 0 {
        return None;
    }
    Some(n + caseless_word(&rest[n..], word)?)
}

fn end_case(rest: &[u8]) -> Option<usize>
    ensures { result ≡ caseless (bytes "END") (blanks (caseless (bytes "CASE") end_of_word)) rest.now }
{
    let behind = behind_caseless(rest, b"END")?;
    Some(3 + blanks_then_word(behind, b"CASE")?)
}

fn end(rest: &[u8]) -> Option<usize>
    ensures { result ≡ or (caseless (bytes "END") (blanks (caseless (bytes "CASE") end_of_word)) rest.now) (caseless (bytes "END") end_of_word rest.now) }
{
    end_case(rest).or_else(|| caseless_word(rest, b"END"))
}

// With the same three questions as the other, of other bytes and words: one function for both would take them all, and be no plainer.
#[inline(always)]
pub fn get_close_paren_token(rest: &[u8], dialect: Dialect) -> Option<Piece>
    ensures { result ≡ get_close_paren_token dialect rest.now }
{
    let first = first_among(rest, b")]Ee")?;
    let n = match first {
        b')' => Some(1),
        b']' => square(rest, b"]", dialect),
        _ => end(rest),
    };
    token_of(TokenKind::CloseParen, n)
}
