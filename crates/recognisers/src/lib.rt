// The recognisers of src/tokenizer.rs that look at the text alone, each under its Rust name. A recogniser gets the rest of the
// statement from the present token on. Most ask its first byte before they try, since few bytes can begin them. It answers a
// piece, or None; a part of a recogniser answers how many bytes it takes, or None where it fails.
#![tactic(auto)]

mod comment;
mod escaped_quotes;
mod hints;
mod kinds;
mod learning;
mod numbers;
mod parens;
mod pieces;
mod placeholders;
mod rest;
mod scan;
mod strings;
mod type_specifier;
mod word_ahead;
mod words;

pub use comment::{get_comment_token, till_line_ending};
pub use hints::{Hints, no_hints};
pub use kinds::kind_number;
pub use learning::learn_opener;
pub use numbers::get_number_token;
pub use parens::{get_close_paren_token, get_open_paren_token};
pub use placeholders::{get_braced_named_placeholder_token, get_placeholder_token};
pub use rest::Rest;
pub use scan::{
    behind_caseless, end_of_word, is_among, is_capital, is_lone, n_more, stands_at, token_of,
};
pub use strings::get_string_token;
pub use type_specifier::get_type_specifier_token;
pub use word_ahead::WordAhead;
pub use words::{get_any_other_char, get_operator_token, get_whitespace_token, get_word_token};

// The SQL dialect, as in src/lib.rs.
#[derive(Clone, Copy, PartialEq, Eq)]
pub enum Dialect {
    Generic,
    PostgreSql,
    SQLServer,
}

#[derive(Clone, Copy, PartialEq, Eq)]
pub enum TokenKind {
    TypeSpecifier,
    Whitespace,
    String,
    Reserved,
    ReservedTopLevel,
    ReservedTopLevelNoIndent,
    ReservedNewline,
    ReservedNewlineAfter,
    Operator,
    OpenParen,
    CloseParen,
    LineComment,
    BlockComment,
    Number,
    Placeholder,
    Word,
    Join,
}

// What a placeholder asks for: a name that stands in the text, such a name with escapes to undo, or a place that counts from 0 or
// from 1. Many ask for nothing. Start and length, as a record has them.
#[derive(Clone, Copy)]
pub enum Key {
    Named { start: usize, len: usize },
    Escaped { start: usize, len: usize },
    ZeroIndexed(u64),
    OneIndexed(u64),
}

// A token at the start of a rest: the alias is the value's first part, and a key's start counts from there. `escaped` is how many
// quotes of a string are escaped.
#[derive(Clone, Copy)]
pub struct Piece {
    pub kind: TokenKind,
    pub len: usize,
    pub alias: usize,
    pub key: Option<Key>,
    pub escaped: usize,
}
