// The four placeholders and their keys.
ghost use Rattle.std.specs.Prelude.{◌≡◌, false, not, cond, ◌&&◌, ◌-◌, ◌≤◌, length, Some, None};
ghost use Rattle.recognisers.specs.declared.Key.TheVariants.{Named};
ghost use Rattle.recognisers.specs.declared.TokenKind.TheVariants.{Placeholder};
ghost use Rattle.recognisers.specs.Taking.{one, literal, contains, starts_with};
ghost use Rattle.recognisers.specs.Text.{byte, bytes};
ghost use Rattle.recognisers.specs.Inner.FirstAmong.{FirstAmong};
ghost use Rattle.recognisers.specs.Pieces.{piece, alt};
ghost use Rattle.recognisers.specs.Strings.{placeholder_string_taken};
ghost use Rattle.recognisers.specs.Placeholder.{number_of, indexed, indexed_key, indexed_taken, get_indexed_placeholder_token, placeholder_name, ident_taken, get_ident_named_placeholder_token, through_brace, braced_text, braced_taken, get_braced_named_placeholder_token, has_escape, string_key, string_named_taken, get_string_named_placeholder_token, get_placeholder_token};

use crate::escaped_quotes::string_named_pairs;
use crate::numbers::marked_digits;
use crate::rest::Rest;
use crate::scan::{at_least, behind_mark, exactly, first_among, is_among, stands_at, starts_among};
use crate::strings::placeholder_string_taken;
use crate::{Key, Piece, TokenKind};
use characters::Class;

// The number that the digits spell, where it fits 64 bits. (No `parse`: these are bytes and no str.)
fn number_of(digits: &[u8]) -> Option<u64>
    ensures { result ≡ number_of digits.now }
{
    let mut n: u64 = 0;
    for d in digits {
        n = n
            .checked_mul(10)?
            .checked_add(u64::from(d.saturating_sub(b'0')))?;
    }
    Some(n)
}

fn indexed_key(rest: &[u8], n: usize) -> Option<Key>
    requires { n ≤ length rest.now }
    ensures { result ≡ indexed_key rest.now n }
{
    if n <= 1 {
        return None;
    }
    let number = number_of(&rest[1..n])?;
    if stands_at(rest, 0, b'$') {
        return Some(Key::OneIndexed(number));
    }
    Some(Key::ZeroIndexed(number))
}

#[inline(always)]
fn indexed_taken(rest: &[u8]) -> Option<usize>
    ensures { result ≡ indexed_taken rest.now }
{
    marked_digits(rest, b"?$").or_else(|| exactly(rest, b"?"))
}

#[inline(always)]
pub fn get_indexed_placeholder_token(rest: &[u8]) -> Option<Piece>
    ensures { result ≡ get_indexed_placeholder_token rest.now }
{
    let n = indexed_taken(rest)?;
    Some(Piece {
        key: indexed_key(rest, n),
        ..Piece::of(TokenKind::Placeholder, n)
    })
}

// A placeholder whose name stands behind one sign; `signs` tells all around it.
#[inline(always)]
fn named_piece(n: usize, signs: usize) -> Piece
    ensures { result ≡ piece Placeholder n (Some (Named 1 (n - signs))) }
{
    Piece {
        key: Some(Key::Named {
            start: 1,
            len: n.saturating_sub(signs),
        }),
        ..Piece::of(TokenKind::Placeholder, n)
    }
}

#[inline(always)]
fn placeholder_name(rest: &[u8]) -> Option<usize>
    ensures { result ≡ placeholder_name rest.now }
{
    at_least(1, characters::run_of(rest, Class::PlaceholderName))
}

#[inline(always)]
fn ident_taken(rest: &[u8]) -> Option<usize>
    ensures { result ≡ ident_taken rest.now }
{
    let behind = behind_mark(rest, b"@:$")?;
    Some(1 + placeholder_name(behind)?)
}

#[inline(always)]
#[tactic(auto, unfolding(crate::specs::Placeholder::get_ident_named_placeholder_token))]
pub fn get_ident_named_placeholder_token(rest: &[u8]) -> Option<Piece>
    ensures { result ≡ get_ident_named_placeholder_token rest.now }
{
    Some(named_piece(ident_taken(rest)?, 1))
}

pub fn through_brace(rest: &[u8]) -> Option<usize>
    ensures { result ≡ through_brace rest.now }
{
    Some(rest.iter().position(|b| *b == b'}')? + 1)
}

fn braced_text(rest: Rest<'_>) -> Option<usize>
    ensures { result ≡ braced_text rest.entry.text.now }
{
    if stands_at(rest.text, 0, b'}') {
        return None;
    }
    if rest.text.len() <= rest.hints.brace {
        return None;
    }
    through_brace(rest.text)
}

fn braced_taken(rest: Rest<'_>) -> Option<usize>
    ensures { result ≡ braced_taken rest.entry.text.now }
{
    if !rest.text.starts_with(b"{") {
        return None;
    }
    Some(1 + braced_text(rest.behind(1))?)
}

#[inline(always)]
#[tactic(auto, unfolding(crate::specs::Placeholder::get_braced_named_placeholder_token))]
pub fn get_braced_named_placeholder_token(rest: Rest<'_>) -> Option<Piece>
    ensures { result ≡ get_braced_named_placeholder_token rest.entry.text.now }
{
    Some(named_piece(braced_taken(rest)?, 2))
}

// A backslash stands directly before the quote.
fn has_escape(text: &[u8], quote: u8) -> bool
    ensures { result ≡ has_escape quote text.now }
{
    // By `zip`: over long texts with backslashes `array_windows` was measured to take 2.7 times as long.
    let mut pairs = text.iter().zip(text.iter().skip(1));
    pairs.any(|(b, next)| *b == b'\\' && *next == quote)
}

fn string_key(rest: &[u8], n: usize) -> Option<Key>
    requires { n ≤ length rest.now }
    ensures { result ≡ string_key rest.now n }
{
    if n < 3 {
        return Some(Key::Named { start: 2, len: 0 });
    }
    let end = n - 1;
    let quote = rest[end];
    if has_escape(&rest[2..end], quote) {
        return Some(Key::Escaped {
            start: 2,
            len: n - 3,
        });
    }
    Some(Key::Named {
        start: 2,
        len: n - 3,
    })
}

fn string_named_taken(rest: Rest<'_>) -> Option<usize>
    ensures { result ≡ string_named_taken rest.entry.dialect rest.entry.text.now }
{
    if !starts_among(rest.text, b"@:") {
        return None;
    }
    Some(1 + placeholder_string_taken(rest.behind(1))?)
}

#[inline(always)]
pub fn get_string_named_placeholder_token(rest: Rest<'_>) -> Option<Piece>
    ensures { result ≡ get_string_named_placeholder_token rest.entry.dialect rest.entry.text.now }
{
    let n = string_named_taken(rest)?;
    Some(Piece {
        key: string_key(rest.text, n),
        escaped: string_named_pairs(&rest.text[..n]),
        ..Piece::of(TokenKind::Placeholder, n)
    })
}

// An index, where it comes before a name: always with places first, else behind `?`, where no name can stand.
fn index_before_name(rest: &[u8], named: bool) -> Option<Piece>
    ensures { result ≡ cond (named && not (starts_with (byte "?") rest.now)) None (get_indexed_placeholder_token rest.now) }
{
    if named {
        if stands_at(rest, 0, b'?') {
            return get_indexed_placeholder_token(rest);
        }
        return None;
    }
    get_indexed_placeholder_token(rest)
}

// No `or_else`, as in the choice of tokenizer: a function apart takes its closure.
fn name_or_string(rest: Rest<'_>) -> Option<Piece>
    ensures { result ≡ alt (get_ident_named_placeholder_token rest.entry.text.now) (get_string_named_placeholder_token rest.entry.dialect rest.entry.text.now) }
{
    if let Some(piece) = get_ident_named_placeholder_token(rest.text) {
        return Some(piece);
    }
    get_string_named_placeholder_token(rest)
}

// Each alternative is tried only where those before it recognise nothing: `$1$1..` would be one long name.
#[inline(always)]
fn placeholder(first: u8, rest: Rest<'_>, named: bool) -> Option<Piece>
    requires { FirstAmong (bytes "?@:${") rest.text.now (Some first) }
    ensures { result ≡ get_placeholder_token named rest.entry.dialect rest.entry.text.now }
{
    if first == b'{' {
        return get_braced_named_placeholder_token(rest);
    }
    if is_among(b"@:", first) {
        return name_or_string(rest);
    }
    if let Some(piece) = index_before_name(rest.text, named) {
        return Some(piece);
    }
    name_or_string(rest)
}

// What the alternatives answer through memory is made ready only where one may begin.
#[inline(always)]
pub fn get_placeholder_token(rest: Rest<'_>, named: bool) -> Option<Piece>
    ensures { result ≡ get_placeholder_token named rest.entry.dialect rest.entry.text.now }
{
    let first = first_among(rest.text, b"?@:${")?;
    placeholder(first, rest, named)
}
