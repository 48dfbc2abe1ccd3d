// `get_next_token`: one ordered choice. With the step and the recognisers it is compiled into each loop over tokens, since an answer
// that is handed back through memory is waited for. (By `or_else` it is not: a function apart takes its closure, and searches take a
// third longer.) Rest, setting and memory stay three: they are made ready at one place and taken apart at each recogniser, and a struct of
// them would be no plainer.
ghost use Rattle.std.specs.Prelude.{◌≡◌};
ghost use Rattle.tokenizer.specs.NextToken.{from_reserved, get_next_token, next_piece};
ghost use Rattle.tokenizer.specs.Inner.Choosing.{choosing};

use crate::Memory;
use recognisers::{
    Piece, Rest, WordAhead, get_any_other_char, get_close_paren_token, get_comment_token,
    get_number_token, get_open_paren_token, get_operator_token, get_placeholder_token,
    get_string_token, get_type_specifier_token, get_whitespace_token, get_word_token,
};
use reserved::get_reserved_word_token;

// The rest of the choice from the reserved words on: what is known of the word at the start is found once.
#[inline(always)]
#[tactic(auto, unfolding(crate::specs::NextToken::from_word, crate::specs::NextToken::from_placeholder, crate::specs::NextToken::from_operator, crate::specs::NextToken::from_reserved))]
fn from_reserved(rest: Rest<'_>, named: bool, memory: &Memory) -> Option<Piece>
    ensures { result ≡ from_reserved (choosing rest.entry.dialect named) memory.now rest.entry.text.now }
{
    let last = memory.top_level;
    let word = WordAhead::of(rest.text);
    if let Some(piece) = get_reserved_word_token(
        word,
        memory.after_dot,
        memory.after_between,
        last,
    ) {
        return Some(piece);
    }
    if let Some(piece) = get_operator_token(rest.text) {
        return Some(piece);
    }
    if let Some(piece) = get_placeholder_token(rest, named) {
        return Some(piece);
    }
    if let Some(piece) = get_word_token(word) {
        return Some(piece);
    }
    get_any_other_char(rest.text)
}

#[inline(always)]
#[tactic(auto, unfolding(crate::specs::NextToken::from_number, crate::specs::NextToken::from_close_paren, crate::specs::NextToken::from_open_paren, crate::specs::NextToken::from_string, crate::specs::NextToken::from_type_specifier, crate::specs::NextToken::get_next_token))]
fn get_next_token(rest: Rest<'_>, named: bool, memory: &Memory) -> Option<Piece>
    ensures { result ≡ get_next_token (choosing rest.entry.dialect named) memory.now rest.entry.text.now }
{
    if let Some(piece) = get_comment_token(rest) {
        return Some(piece);
    }
    if let Some(piece) = get_type_specifier_token(rest.text, memory.type_specifier) {
        return Some(piece);
    }
    if let Some(piece) = get_string_token(rest) {
        return Some(piece);
    }
    if let Some(piece) = get_open_paren_token(rest.text, rest.dialect) {
        return Some(piece);
    }
    if let Some(piece) = get_close_paren_token(rest.text, rest.dialect) {
        return Some(piece);
    }
    if let Some(piece) = get_number_token(rest.text) {
        return Some(piece);
    }
    from_reserved(rest, named, memory)
}

// Whitespace is taken first.
#[inline(always)]
#[tactic(auto, unfolding(crate::specs::NextToken::next_piece))]
pub fn next_piece(rest: Rest<'_>, named: bool, memory: &Memory) -> Option<Piece>
    ensures { result ≡ next_piece (choosing rest.entry.dialect named) memory.now rest.entry.text.now }
{
    if let Some(piece) = get_whitespace_token(rest.text) {
        return Some(piece);
    }
    get_next_token(rest, named, memory)
}
