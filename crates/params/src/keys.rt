// What is asked of a token and of its key: its text, with escapes undone, and its index.
ghost use Rattle.std.specs.Prelude.{◌≡◌, ◌&&◌, eqb, Option, Some, None};
ghost use Rattle.recognisers.specs.Text.{byte};
ghost use Rattle.recognisers.specs.Taking.{starts_with};
ghost use Rattle.recognisers.specs.Same.{same};
ghost use Rattle.tokenizer.specs.KeyText.{unescaped, key_text};
ghost use Rattle.params.specs.Keys.{has_name};
ghost use Rattle.params.specs.Get.{own_text};
ghost use Rattle.params.specs.Filled.{is_placeholder};
ghost use Rattle.params.specs.Nought.{is_nought};
ghost use Rattle.params.specs.Inner.Entries.{index_told};

use crate::Part;
use recognisers::{Key, TokenKind, stands_at};
use tokenizer::PlacedToken;

// A backslash directly before the quote.
fn is_escape(b: u8, rest: &[u8], quote: u8) -> bool
    ensures { result ≡ (eqb b (byte "\\") && starts_with quote rest.now) }
{
    b == b'\\' && stands_at(rest, 0, quote)
}

// The name is the text with its escapes undone. A `while let`: a turn looks at a byte and at the one behind it.
#[tactic(auto, using(crate::proofs::KeyTexts::some_name))]
fn is_unescaped(mut name: &[u8], mut text: &[u8], quote: u8) -> bool
    ensures { result ≡ same name.now (unescaped quote text.now) }
{
    while let Some((b, rest)) = text.split_first() {
        text = rest;
        if !is_escape(*b, rest, quote) {
            if !stands_at(name, 0, *b) {
                return false;
            }
            name = &name[1..];
        }
    }
    name.is_empty()
}

// The index that a key tells: from one on, or from zero. Behind a one-indexed zero there is none.
pub fn index_told(key: Option<Key>) -> Option<u64>
    ensures { result ≡ index_told key }
{
    match key {
        Some(Key::ZeroIndexed(n)) => Some(n),
        Some(Key::OneIndexed(n)) => Some(n.wrapping_sub(1)),
        _ => None,
    }
}

#[inline(always)]
#[tactic(auto, unfolding(crate::specs::Filled::is_placeholder))]
pub fn is_placeholder(token: PlacedToken<'_>) -> bool
    ensures { result ≡ is_placeholder token.entry.token }
{
    token.token.kind == TokenKind::Placeholder
}

// A one-indexed zero.
pub fn is_nought(key: Option<Key>) -> bool
    ensures { result ≡ is_nought key }
{
    matches!(key, Some(Key::OneIndexed(0)))
}

#[inline(always)]
pub fn own_text(token: PlacedToken<'_>) -> Part
    ensures { result ≡ own_text token.entry.token }
{
    Part::Statement {
        start: token.token.start,
        len: token.token.len,
    }
}

// The key's text is the name.
#[tactic(auto, using(recognisers::proofs::LibraryWords::equal, crate::proofs::KeyTexts::same_nothing))]
pub fn has_text(token: PlacedToken<'_>, name: &[u8]) -> bool
    ensures { result ≡ same name.now (key_text token.entry.statement.now token.entry.token.key) }
{
    let statement = token.statement;
    match token.token.key {
        Some(Key::Named { start, len }) => {
            let end = start + len;
            name == &statement[start..end]
        }
        Some(Key::Escaped { start, len }) => {
            let end = start + len;
            is_unescaped(name, &statement[start..end], statement[end])
        }
        _ => name.is_empty(),
    }
}

#[tactic(auto, unfolding(crate::specs::Keys::has_name), using(crate::proofs::KeyTexts::named_named, crate::proofs::KeyTexts::escaped_named))]
pub fn has_name(token: PlacedToken<'_>) -> bool
    ensures { result ≡ has_name token.entry.statement.now token.entry.token.key }
{
    match token.token.key {
        Some(Key::Named { len, .. } | Key::Escaped { len, .. }) => len > 0,
        _ => false,
    }
}
