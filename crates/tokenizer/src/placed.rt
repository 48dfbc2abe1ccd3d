// A token with its statement.
ghost use Rattle.std.specs.Prelude.{◌+◌, ◌≤◌, length};
ghost use Rattle.tokenizer.specs.Inner.Inside.{key_end};

use crate::Token;

// A token of a statement: its text and its key's text stand inside.
#[derive(Clone, Copy)]
pub struct PlacedToken<'a> {
    pub statement: &'a [u8],
    pub token: Token,
    pub ghost text_inside: { token.start + token.len ≤ length statement.now },
    pub ghost key_inside: { key_end token.key ≤ length statement.now },
}

impl<'a> PlacedToken<'a> {
    ghost use Rattle.std.specs.Prelude.{◌≡◌};
    ghost use Rattle.tokenizer.specs.Values.{value};

    // The place behind its text.
    #[inline(always)]
    pub fn end(self) -> usize
        ensures { result ≡ self.entry.token.start + self.entry.token.len }
    {
        self.token.start + self.token.len
    }

    #[inline(always)]
    pub fn text(self) -> &'a [u8]
        ensures { result.now ≡ value self.entry.statement.now self.entry.token }
    {
        let statement = self.statement;
        let start = self.token.start;
        let end = self.end();
        &statement[start..end]
    }
}
