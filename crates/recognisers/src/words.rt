// `get_whitespace_token`, `get_operator_token`, `get_word_token` and `get_any_other_char`.
ghost use Rattle.std.specs.Prelude.{◌≡◌, ◌||◌, min};
ghost use Rattle.recognisers.specs.Taking.{count, starts_with};
ghost use Rattle.recognisers.specs.Text.{byte};
ghost use Rattle.characters.specs.Classes.{is_word_character};
ghost use Rattle.characters.specs.Runs.{run};
ghost use Rattle.recognisers.specs.Words.{get_whitespace_token, is_operator, get_operator_token, get_word_token, get_any_other_char};

use crate::scan::{at_least, is_among, stands_at, starts_among, token_of};
use crate::word_ahead::WordAhead;
use crate::{Piece, TokenKind};
use characters::Class;

// No other byte begins whitespace; C0, E0 and F0 begin none in a well-formed text.
#[inline(always)]
pub fn get_whitespace_token(rest: &[u8]) -> Option<Piece>
    ensures { result ≡ get_whitespace_token rest.now }
{
    if starts_among(rest, b"\x09\x0A\x0B\x0C\x0D \xC0\xC2\xE0\xE1\xE2\xE3\xF0") {
        let n = characters::run_of(rest, Class::Whitespace);
        return token_of(TokenKind::Whitespace, at_least(1, n));
    }
    None
}

// In two halves: eight bytes are one test.
#[inline(always)]
fn is_operator(b: u8) -> bool
    ensures { result ≡ is_operator b }
{
    is_among(b"!<>=|:-~", b) || is_among(b"*&@^?#/%", b)
}

fn count_operators(rest: &[u8]) -> usize
    ensures { result ≡ count is_operator rest.now }
{
    let end = rest.iter().position(|b| !is_operator(*b));
    end.unwrap_or(rest.len())
}

// Five bytes are enough to look at.
#[inline(always)]
fn few_operators(rest: &[u8]) -> usize
    ensures { result ≡ min (count is_operator rest.now) 5 }
{
    count_operators(&rest[..rest.len().min(5)])
}

// A run takes two at least, and is counted only where two begin it.
#[inline(always)]
pub fn get_operator_token(rest: &[u8]) -> Option<Piece>
    ensures { result ≡ get_operator_token rest.now }
{
    if !is_operator(*rest.first()?) {
        return None;
    }
    if !is_operator(*rest.get(1)?) {
        return None;
    }
    token_of(TokenKind::Operator, at_least(2, few_operators(rest)))
}

// The end of the word.
#[inline(always)]
#[tactic(auto, unfolding(characters::specs::Runs::in_class), using(crate::proofs::WordRuns::word_at, crate::proofs::WordRuns::word_whole, crate::proofs::WordRuns::word_stops))]
fn word_end(word: WordAhead<'_>) -> usize
    ensures { result ≡ run is_word_character 0 word.entry.rest.now }
{
    let WordAhead { rest, len } = word;
    if rest.len() <= len {
        return len;
    }
    if rest[len] < 128 {
        return len;
    }
    characters::run_from(rest, len, Class::Word)
}

#[inline(always)]
#[tactic(auto, unfolding(crate::specs::Words::get_word_token))]
pub fn get_word_token(word: WordAhead<'_>) -> Option<Piece>
    ensures { result ≡ get_word_token word.entry.rest.now }
{
    token_of(TokenKind::Word, at_least(1, word_end(word)))
}

fn is_line_break(rest: &[u8]) -> bool
    ensures { result ≡ (starts_with (byte "\n") rest.now || starts_with (byte "\r") rest.now) }
{
    stands_at(rest, 0, b'\n') || stands_at(rest, 0, b'\r')
}

// One character, but no CR or LF.
#[inline(always)]
pub fn get_any_other_char(rest: &[u8]) -> Option<Piece>
    ensures { result ≡ get_any_other_char rest.now }
{
    if is_line_break(rest) {
        return None;
    }
    let c = characters::character_at(rest, 0);
    token_of(TokenKind::Operator, at_least(1, c.len))
}
