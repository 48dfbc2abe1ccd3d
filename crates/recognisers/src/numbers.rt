// `get_number_token`, `decimal_number` and `scientific_notation`.
ghost use Rattle.std.specs.Prelude.{◌≡◌};
ghost use Rattle.recognisers.specs.Text.{bytes};
ghost use Rattle.recognisers.specs.Taking.{or, done, one, literal, digit1, contains};
ghost use Rattle.recognisers.specs.Number.{decimal_number, signed_digits, exponent, unsigned, get_number_token};

use crate::scan::{at_least, behind_mark, count_digits, starts_among, token_of};
use crate::{Piece, TokenKind};

// `digit1`
pub fn digits(rest: &[u8]) -> Option<usize>
    ensures { result ≡ digit1 done rest.now }
{
    at_least(1, count_digits(rest))
}

pub fn marked_digits(rest: &[u8], marks: &[u8]) -> Option<usize>
    ensures { result ≡ one (contains marks.now) (digit1 done) rest.now }
{
    let behind = behind_mark(rest, marks)?;
    Some(1 + digits(behind)?)
}

fn signed_digits(rest: &[u8]) -> Option<usize>
    ensures { result ≡ signed_digits rest.now }
{
    marked_digits(rest, b"-+").or_else(|| digits(rest))
}

// A front, and what stands behind it by `?`, as `block_comment`, `ident_taken` and their like: a combinator would take each as a closure, and
// be no plainer.
fn exponent(rest: &[u8]) -> Option<usize>
    ensures { result ≡ exponent rest.now }
{
    let behind = rest.strip_prefix(b"e")?;
    Some(1 + signed_digits(behind)?)
}

// Digits, a point, and digits or none.
fn decimal_number(rest: &[u8]) -> Option<usize>
    ensures { result ≡ decimal_number done rest.now }
{
    let whole = digits(rest)?;
    let fraction = rest[whole..].strip_prefix(b".")?;
    Some(whole + 1 + count_digits(fraction))
}

// One, or digits alone.
fn significand(rest: &[u8]) -> Option<usize>
    ensures { result ≡ or (decimal_number done rest.now) (digit1 done rest.now) }
{
    decimal_number(rest).or_else(|| digits(rest))
}

// In `scientific_notation`, where an exponent stands behind it.
fn unsigned_number(rest: &[u8]) -> Option<usize>
    ensures { result ≡ unsigned rest.now }
{
    let n = significand(rest)?;
    Some(n + exponent(&rest[n..]).unwrap_or(0))
}

fn number(rest: &[u8]) -> Option<usize>
    ensures { result ≡ or (literal (bytes "-") unsigned rest.now) (unsigned rest.now) }
{
    match rest.strip_prefix(b"-") {
        Some(behind) => Some(1 + unsigned_number(behind)?),
        None => unsigned_number(rest),
    }
}

#[inline(always)]
pub fn get_number_token(rest: &[u8]) -> Option<Piece>
    ensures { result ≡ get_number_token rest.now }
{
    if starts_among(rest, b"-0123456789") {
        return token_of(TokenKind::Number, number(rest));
    }
    None
}
