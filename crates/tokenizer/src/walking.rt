// The tokens of a statement, one after the other.
ghost use Rattle.recognisers.specs.Inner.Known.{Truthful};
ghost use Rattle.recognisers.specs.Inner.KnownOnce.{truthful_once};

use crate::stepping::{at_start, next_step};
use crate::{Cursor, Token};
use calls::Settings;
use recognisers::{Hints, no_hints};

// What looks that failed have told of the statement goes along.
#[derive(Drop)]
pub struct Tokens<'a> {
    statement: &'a [u8],
    settings: Settings,
    cursor: Cursor,
    hints: Hints,
    ghost known: { Truthful hints statement.now } by { truthful_once hints statement.now },
}

impl<'a> Tokens<'a> {
    ghost use Rattle.std.specs.Prelude.{◌≡◌};
    ghost use Rattle.tokenizer.specs.Tokens.{tokens};
    ghost use Rattle.tokenizer.specs.Left.{tokens_left};

    pub fn new(statement: &'a [u8], settings: Settings) -> Self
        ensures { tokens_left result ≡ tokens settings statement.now }
    {
        Tokens {
            statement: statement,
            settings: settings,
            cursor: at_start(),
            hints: no_hints(),
        }
    }
}

impl<'a> Iterator for Tokens<'a> {
    ghost use Rattle.std.specs.Iterator.{YieldsFirst, item_count};
    ghost use Rattle.tokenizer.specs.Left.{tokens_left};

    type Item = Token;

    ghost next_gives = { YieldsFirst tokens_left };

    ghost remaining = { item_count tokens_left };

    #[inline(always)]
    fn next(&mut self) -> Option<Token> {
        next_step(
            self.statement,
            self.settings,
            &mut self.cursor,
            &mut self.hints,
        )
    }
}
