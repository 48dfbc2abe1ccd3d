// `get_reserved_word_token`, and what EXCEPT, SET, USING and AND ask of earlier tokens.
ghost use Rattle.std.specs.Prelude.{◌≡◌, Some, length};
ghost use Rattle.reserved.specs.Reserved.{top_level_kind, alias_length, top_level_token, newline_token, may_be_reserved, get_reserved_word_token};
ghost use Rattle.reserved.specs.Inner.Entries.{entries, find_entry, token_for};

use crate::TopLevel;
use crate::entries::Group;
use crate::find::find_phrase;
use recognisers::{Key, Piece, TokenKind, WordAhead, is_lone, token_of};

#[tactic(auto, unfolding(crate::specs::Reserved::top_level_kind), using(recognisers::proofs::LibraryWords::equal))]
fn top_level_kind(value: &[u8], last: TopLevel) -> TokenKind
    ensures { result ≡ top_level_kind last value.now }
{
    match last {
        TopLevel::MergeInto | TopLevel::DeleteFrom => TokenKind::ReservedTopLevel,
        TopLevel::Select if value == b"EXCEPT".as_slice() => TokenKind::Reserved,
        TopLevel::Update if value == b"SET".as_slice() => TokenKind::ReservedNewlineAfter,
        _ if value == b"USING".as_slice() => TokenKind::Reserved,
        _ => TokenKind::ReservedTopLevel,
    }
}

// CREATE and SELECT stand for all phrases that begin so.
#[tactic(auto, unfolding(crate::specs::Reserved::alias_length), using(recognisers::proofs::LibraryWords::spelled_starts))]
fn alias_length(value: &[u8]) -> usize
    ensures { result ≡ alias_length value.now }
{
    if value.starts_with(b"CREATE") || value.starts_with(b"SELECT") {
        return 6;
    }
    value.len()
}

#[inline(always)]
fn top_level_token(value: &[u8], last: TopLevel) -> Option<Piece>
    ensures { result ≡ top_level_token last value.now (Some (length value.now)) }
{
    Some(Piece {
        kind: top_level_kind(value, last),
        len: value.len(),
        alias: alias_length(value),
        key: None,
        escaped: 0,
    })
}

#[inline(always)]
#[tactic(auto, using(recognisers::proofs::LibraryWords::equal, std::proofs::lemmas::List::take_all))]
fn newline_token(value: &[u8], after_between: bool) -> Option<Piece>
    ensures { result ≡ newline_token after_between value.now (Some (length value.now)) }
{
    if after_between && value == b"AND".as_slice() {
        return token_of(TokenKind::Reserved, Some(value.len()));
    }
    token_of(TokenKind::ReservedNewline, Some(value.len()))
}

// The token that a phrase makes, by its bytes.
#[inline(always)]
fn token_for(group: Group, value: &[u8], after_between: bool, last: TopLevel) -> Option<Piece>
    ensures { result ≡ token_for after_between last value.now (Some (group, length value.now)) }
{
    let n = Some(value.len());
    match group {
        Group::TopLevel | Group::Dropped => top_level_token(value, last),
        Group::NewlineAfter => token_of(TokenKind::ReservedNewlineAfter, n),
        Group::Newline => newline_token(value, after_between),
        Group::Join => token_of(TokenKind::Join, n),
        Group::NoIndent => token_of(TokenKind::ReservedTopLevelNoIndent, n),
        Group::Plain => token_of(TokenKind::Reserved, n),
    }
}

// A letter or `$`. (By `match`: no closure where every token passes.)
#[inline(always)]
#[tactic(auto, using(crate::proofs::FirstLetter::letter_first, crate::proofs::FirstLetter::other_first, crate::proofs::FirstLetter::no_first))]
fn may_be_reserved(rest: &[u8]) -> bool
    ensures { result ≡ may_be_reserved rest.now }
{
    match rest.first() {
        Some(b) => b.is_ascii_alphabetic() || *b == b'$',
        None => false,
    }
}

#[inline(always)]
#[tactic(auto, using(crate::proofs::EntryTokens::value_length, crate::proofs::EntryTokens::by_value, crate::proofs::LoneDollar::lone_dollar))]
fn reserved_token(word: WordAhead<'_>, after_between: bool, last: TopLevel) -> Option<Piece>
    ensures { let s = word.entry.rest.now in result ≡ token_for after_between last s (find_entry entries s) }
{
    let rest = word.rest;
    // A `$` without another behind it begins no phrase.
    if is_lone(rest, b'$', b'$') {
        return None;
    }
    let (group, n) = find_phrase(word)?;
    token_for(group, &rest[..n], after_between, last)
}

// What is asked of earlier tokens is three facts by themselves: as a struct it would be a part of the tokenizer's Memory, whose
// definitions would name each by two fields, no plainer.
#[inline(always)]
#[tactic(auto, using(crate::proofs::EntryTokens::after_dot_lem, crate::proofs::EntryTokens::no_letter, crate::proofs::EntryTokens::reserved_word))]
pub fn get_reserved_word_token(
    word: WordAhead<'_>,
    after_dot: bool,
    after_between: bool,
    last: TopLevel,
) -> Option<Piece>
    ensures { result ≡ get_reserved_word_token after_dot after_between last word.entry.rest.now }
{
    if after_dot {
        return None;
    }
    if !may_be_reserved(word.rest) {
        return None;
    }
    reserved_token(word, after_between, last)
}
