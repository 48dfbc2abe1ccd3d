// `take_till_escaping`, `get_string_token` and `get_placeholder_string_token`.
ghost use Rattle.std.specs.Prelude.{◌≡◌, true, false, ◌&&◌, ◌+◌, ◌<◌, length, drop, get_or};
ghost use Rattle.recognisers.specs.Text.{byte, bytes};
ghost use Rattle.recognisers.specs.Taking.{more, or, literal, contains, starts_with};
ghost use Rattle.recognisers.specs.Strings.{take_till_escaping, closed_by, in_sql_server, hex_taken, string_taken, get_string_token, placeholder_string_taken};
ghost use Rattle.recognisers.specs.Inner.Known.{Known};

use crate::escaped_quotes::string_pairs;
use crate::rest::Rest;
use crate::scan::{first_among, is_among, stands_at};
use crate::{Dialect, Piece, TokenKind};

// The desired byte and the escapes are the Rust's two parameters throughout: a struct of both would be written out at each call, and be no
// plainer.

// An escape stands at i, and the desired byte behind it.
#[inline(always)]
pub fn escaped_at(rest: &[u8], i: usize, desired: u8, escapes: &[u8]) -> bool
    requires { i < length rest.now }
    ensures { result ≡ (starts_with desired (drop (i + 1) rest.now) && contains escapes.now (get_or rest.now i 0)) }
{
    stands_at(rest, i + 1, desired) && is_among(escapes, rest[i])
}

// A `while`: an escape and the byte behind it are passed together, so that no `for` counts the turns.
pub fn take_till_escaping(rest: &[u8], desired: u8, escapes: &[u8]) -> Option<usize>
    ensures { result ≡ take_till_escaping desired escapes.now false rest.now }
{
    let mut i = 0;
    while i < rest.len() {
        if escaped_at(rest, i, desired, escapes) {
            i += 2;
        } else {
            if rest[i] == desired {
                return Some(i);
            }
            i += 1;
        }
    }
    None
}

// The same, where the rests of at most `known` bytes lack their closing quote unless they start with one: there only the quotes at the
// start are read, by the same turns (a `while` as above).
fn take_till_escaping_known(rest: &[u8], desired: u8, escapes: &[u8], known: usize) -> Option<usize>
    requires { Known desired escapes.now rest.now known }
    ensures { result ≡ take_till_escaping desired escapes.now false rest.now }
{
    if known < rest.len() {
        return take_till_escaping(rest, desired, escapes);
    }
    let mut i = 0;
    while stands_at(rest, i, desired) {
        if escaped_at(rest, i, desired, escapes) {
            i += 2;
        } else {
            return Some(i);
        }
    }
    None
}

// `(take_till_escaping(..), any)`: through the closing quote.
fn closed_by(rest: &[u8], desired: u8, escapes: &[u8]) -> Option<usize>
    ensures { result ≡ closed_by desired escapes.now rest.now }
{
    Some(1 + take_till_escaping(rest, desired, escapes)?)
}

#[inline(always)]
fn quoted(rest: &[u8], opener: &[u8], desired: u8, escapes: &[u8]) -> Option<usize>
    ensures { result ≡ literal opener.now (closed_by desired escapes.now) rest.now }
{
    let behind = rest.strip_prefix(opener)?;
    Some(opener.len() + closed_by(behind, desired, escapes)?)
}

// `known` goes along with the quote from the hints to here alone. A function between: with its sum in `quoted_known` searches take 2 % longer.
fn closed_by_known(rest: &[u8], desired: u8, escapes: &[u8], known: usize) -> Option<usize>
    requires { Known desired escapes.now rest.now known }
    ensures { result ≡ closed_by desired escapes.now rest.now }
{
    Some(1 + take_till_escaping_known(rest, desired, escapes, known)?)
}

// Behind an opener of one byte.
#[inline(always)]
fn quoted_known(rest: &[u8], desired: u8, escapes: &[u8], known: usize) -> Option<usize>
    requires { Known desired escapes.now rest.now known }
    ensures { result ≡ more 1 (closed_by desired escapes.now (drop 1 rest.now)) }
{
    let (_, behind) = rest.split_first()?;
    Some(1 + closed_by_known(behind, desired, escapes, known)?)
}

fn bracketed(rest: Rest<'_>) -> Option<usize>
    requires { starts_with (byte "[") rest.text.now ≡ true }
    ensures { result ≡ in_sql_server rest.entry.dialect (literal (bytes "[") (closed_by (byte "]") (bytes "]"))) rest.entry.text.now }
{
    match rest.dialect {
        Dialect::Generic | Dialect::PostgreSql => None,
        Dialect::SQLServer => quoted_known(rest.text, b']', b"]", rest.hints.square),
    }
}

fn hex_taken(rest: &[u8]) -> Option<usize>
    ensures { result ≡ hex_taken rest.now }
{
    quoted(rest, b"x'", b'\'', b"").or_else(|| quoted(rest, b"X'", b'\'', b""))
}

// National strings, those with an E before them, and hexadecimal ones.
fn prefixed_taken(rest: &[u8]) -> Option<usize>
    ensures { result ≡ or (literal (bytes "N'") (closed_by (byte "'") (bytes "'\\")) rest.now) (or (literal (bytes "E'") (closed_by (byte "'") (bytes "'\\")) rest.now) (hex_taken rest.now)) }
{
    let national = quoted(rest, b"N'", b'\'', b"'\\");
    national
        .or_else(|| quoted(rest, b"E'", b'\'', b"'\\"))
        .or_else(|| hex_taken(rest))
}

// By the opener's first byte. A letter opens a string only before a quote.
#[inline(always)]
fn string_taken(rest: Rest<'_>) -> Option<usize>
    ensures { result ≡ string_taken rest.entry.dialect rest.entry.text.now }
{
    let text = rest.text;
    let first = first_among(text, b"'\"`[NExX")?;
    match first {
        b'\'' => quoted_known(text, b'\'', b"'\\", rest.hints.single),
        b'"' => quoted_known(text, b'"', b"\"\\", rest.hints.double),
        b'`' => quoted(text, b"`", b'`', b"`"),
        b'[' => bracketed(rest),
        _ if stands_at(text, 1, b'\'') => prefixed_taken(text),
        _ => None,
    }
}

#[inline(always)]
pub fn get_string_token(rest: Rest<'_>) -> Option<Piece>
    ensures { result ≡ get_string_token rest.entry.dialect rest.entry.text.now }
{
    let n = string_taken(rest)?;
    Some(Piece {
        escaped: string_pairs(&rest.text[..n]),
        ..Piece::of(TokenKind::String, n)
    })
}

// By the opener's first byte too, with other escapes.
pub fn placeholder_string_taken(rest: Rest<'_>) -> Option<usize>
    ensures { result ≡ placeholder_string_taken rest.entry.dialect rest.entry.text.now }
{
    let text = rest.text;
    let first = first_among(text, b"'\"`[N")?;
    match first {
        b'\'' => quoted(text, b"'", b'\'', b"\\"),
        b'"' => quoted(text, b"\"", b'"', b"\\"),
        b'`' => quoted(text, b"`", b'`', b"`"),
        b'[' => bracketed(rest),
        _ => quoted(text, b"N'", b'\'', b"\\"),
    }
}
