// src/tokenizer.rs: the tokens of a statement, one step at a time and as a table of records.
#![tactic(auto)]

use recognisers::{Key, TokenKind};
use reserved::TopLevel;

mod choice;
mod levels;
mod placed;
mod records;
mod remembering;
mod stepping;
mod table;
mod tokenizing;
mod walking;

pub use levels::level_past;
pub use placed::PlacedToken;
pub use records::key_words;
pub use stepping::{at_start, next_step};
pub use table::count_tokens;
pub use tokenizing::tokenize;
pub use walking::Tokens;

// What is asked of earlier tokens: may a type specifier stand here, is the last non-whitespace token's value `.`, is the last
// Reserved token's value BETWEEN, and the last top-level token's alias.
#[derive(Clone, Copy)]
pub struct Memory {
    pub type_specifier: bool,
    pub after_dot: bool,
    pub after_between: bool,
    pub top_level: TopLevel,
}

// A token of a statement: start, length and alias length in bytes, a key whose places count from the statement's start, and how many
// of its quotes are escaped. No two lengths are neighbours: two that are written one by one and then read as a pair are waited for.
#[derive(Clone, Copy)]
pub struct Token {
    pub len: usize,
    pub kind: TokenKind,
    pub start: usize,
    pub key: Option<Key>,
    pub alias: usize,
    pub escaped: usize,
}

// Where reading stands, and what it remembers.
#[derive(Clone, Copy)]
pub struct Cursor {
    pub at: usize,
    pub memory: Memory,
}

// How many tokens were written, and how many quotes are escaped in them.
#[derive(Clone, Copy)]
pub struct Totals {
    pub tokens: usize,
    pub escaped: usize,
}

// The last three words of a record.
#[derive(Clone, Copy)]
pub struct KeyWords {
    pub kind: u64,
    pub a: u64,
    pub b: u64,
}
