// What is remembered of a token.
ghost use Rattle.std.specs.Prelude.{◌≡◌, ◌≤◌, length, take};
ghost use Rattle.tokenizer.specs.Memory.{takes_type_specifier, top_level_of, after_between, last_top_level, remember};

use crate::Memory;
use recognisers::TokenKind;
use reserved::TopLevel;

#[inline(always)]
#[tactic(auto, unfolding(crate::specs::Memory::takes_type_specifier))]
fn takes_type_specifier(kind: TokenKind) -> bool
    ensures { result ≡ takes_type_specifier kind }
{
    matches!(
        kind,
        TokenKind::TypeSpecifier
            | TokenKind::String
            | TokenKind::Reserved
            | TokenKind::CloseParen
            | TokenKind::Number
            | TokenKind::Placeholder
            | TokenKind::Word
    )
}

#[tactic(auto, unfolding(crate::specs::Memory::top_level_of), using(recognisers::proofs::LibraryWords::equal))]
fn top_level_of(alias: &[u8]) -> TopLevel
    ensures { result ≡ top_level_of alias.now }
{
    match alias {
        _ if alias == b"SELECT".as_slice() => TopLevel::Select,
        _ if alias == b"UPDATE".as_slice() => TopLevel::Update,
        _ if alias == b"MERGE INTO".as_slice() => TopLevel::MergeInto,
        _ if alias == b"DELETE FROM".as_slice() => TopLevel::DeleteFrom,
        _ => TopLevel::Other,
    }
}

// What is asked of a token that was read: the alias is the value's first part.
#[derive(Clone, Copy)]
pub struct ReadToken<'a> {
    pub kind: TokenKind,
    pub value: &'a [u8],
    pub alias: usize,
    ghost alias_inside: { alias ≤ length value.now },
}

impl<'a> ReadToken<'a> {
    #[inline(always)]
    fn alias_text(self) -> &'a [u8]
        ensures { result.now ≡ take self.entry.alias self.entry.value.now }
    {
        &self.value[..self.alias]
    }

    #[inline(always)]
    #[tactic(auto, unfolding(crate::specs::Memory::after_between), using(recognisers::proofs::LibraryWords::equal))]
    fn after_between(self, before: bool) -> bool
        ensures { result ≡ after_between before self.entry.kind self.entry.value.now }
    {
        if self.kind == TokenKind::Reserved {
            return self.value == b"BETWEEN".as_slice();
        }
        before
    }

    #[inline(always)]
    #[tactic(auto, unfolding(crate::specs::Memory::last_top_level))]
    fn last_top_level(self, before: TopLevel) -> TopLevel
        ensures { result ≡ last_top_level before self.entry.kind self.entry.value.now self.entry.alias }
    {
        if self.kind == TokenKind::ReservedTopLevel {
            return top_level_of(self.alias_text());
        }
        before
    }
}

impl Memory {
    // One field after the other, in place: a memory that is handed back whole is packed into a word and taken apart for each token.
    #[inline(always)]
    #[tactic(auto, unfolding(crate::specs::Memory::remember), using(recognisers::proofs::LibraryWords::equal))]
    pub fn remember(&mut self, token: ReadToken<'_>)
        ensures { self.new ≡ remember self.old token.entry.kind token.entry.value.now token.entry.alias }
    {
        self.type_specifier = takes_type_specifier(token.kind);
        self.after_dot = token.value == b".".as_slice();
        self.after_between = token.after_between(self.after_between);
        self.top_level = token.last_top_level(self.top_level);
    }
}
