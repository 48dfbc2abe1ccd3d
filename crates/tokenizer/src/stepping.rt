// One step of reading.
ghost use Rattle.std.specs.Prelude.{◌≡◌, ◌+◌, ◌^◌, ◌≤◌, ◌<◌, length, drop};
ghost use Rattle.recognisers.specs.Inner.KeyStart.{key_start};
ghost use Rattle.recognisers.specs.Inner.Known.{Truthful};
ghost use Rattle.tokenizer.specs.Memory.{start};
ghost use Rattle.tokenizer.specs.NextToken.{next_piece};
ghost use Rattle.tokenizer.specs.Tokens.{given_out, placed};
ghost use Rattle.tokenizer.specs.Inner.Stepping.{Stepped};

use crate::choice::next_piece;
use crate::remembering::ReadToken;
use crate::{Cursor, Memory, Token};
use calls::Settings;
use recognisers::{Dialect, Hints, Key, Piece, Rest, TokenKind, learn_opener};
use reserved::TopLevel;

// Before the first token. (With a contract of its own, which a `Default` has not.)
pub fn at_start() -> Cursor
    ensures { result ≡ record { at = 0; memory = start } }
{
    Cursor {
        at: 0,
        memory: Memory {
            type_specifier: true,
            after_dot: false,
            after_between: false,
            top_level: TopLevel::Other,
        },
    }
}

// A Join is given out as top level or as a newline word.
#[inline(always)]
#[tactic(auto, unfolding(crate::specs::Tokens::given_out))]
fn given_out(joins: bool, kind: TokenKind) -> TokenKind
    ensures { result ≡ given_out joins kind }
{
    if kind == TokenKind::Join {
        if joins {
            return TokenKind::ReservedTopLevel;
        }
        return TokenKind::ReservedNewline;
    }
    kind
}

// A key's places, counted from the statement's start: arm by arm, as `Key` has them.
#[inline(always)]
fn place_key(at: usize, key: Option<Key>) -> Option<Key>
    requires { at + key_start key < 2 ^ 64 }
    ensures { result ≡ placed at key }
{
    Some(match key? {
        Key::Named { start, len } => Key::Named {
            start: at + start,
            len,
        },
        Key::Escaped { start, len } => Key::Escaped {
            start: at + start,
            len,
        },
        index => index,
    })
}

// An opener that opens nothing is an Operator. (Statement and hints stay two parameters in this file for speed, as
// at `learn_line`.)
#[inline(always)]
fn learn(statement: &[u8], at: usize, kind: TokenKind, dialect: Dialect, hints: &mut Hints)
    requires at_in_bounds { at < length statement.now }
    requires truthful { Truthful hints.old statement.now }
    ensures { Truthful hints.new statement.now }
{
    if kind == TokenKind::Operator {
        learn_opener(statement, at, dialect, hints);
    }
}

#[inline(always)]
fn piece_at(
    statement: &[u8],
    at: usize,
    settings: Settings,
    memory: &Memory,
    hints: &Hints,
) -> Option<Piece>
    requires at_in_bounds { at ≤ length statement.now }
    requires truthful { Truthful hints.now statement.now }
    ensures { result ≡ next_piece settings memory.now (drop at statement.now) }
{
    let rest = Rest {
        text: &statement[at..],
        dialect: settings.dialect,
        hints,
    };
    next_piece(rest, settings.named, memory)
}

// What is known of the statement's end goes along, and grows where an opener opened nothing. Gaps are not remembered.
#[inline(always)]
pub fn next_step(
    statement: &[u8],
    settings: Settings,
    cursor: &mut Cursor,
    hints: &mut Hints,
) -> Option<Token>
    requires { Truthful hints.old statement.now }
    ensures stepped { Stepped settings statement.now cursor.old result cursor.new }
    ensures truthful { Truthful hints.new statement.now }
{
    let at = cursor.at;
    if statement.len() <= at {
        return None;
    }
    let piece = piece_at(statement, at, settings, &cursor.memory, hints)?;
    let kind = piece.kind;
    let len = piece.len;
    let alias = piece.alias;
    let key = piece.key;
    let token = Token {
        kind: given_out(settings.joins, kind),
        start: at,
        len: len,
        alias: alias,
        key: place_key(at, key),
        escaped: piece.escaped,
    };
    cursor.at = at + len;
    if kind == TokenKind::Whitespace {
        return Some(token);
    }
    learn(statement, at, kind, settings.dialect, hints);
    let rest = &statement[at..];
    let value = &rest[..len];
    cursor.memory.remember(ReadToken { kind, value, alias });
    Some(token)
}
