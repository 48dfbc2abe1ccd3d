// Characters as src/tokenizer.rs sees them: the classes of a code point, and UTF-8. Rust's `char` becomes a `u32` here, and
// every `u32` has an answer.
#![tactic(auto)]

mod alphabetic;
mod ascii;
mod classes;
mod connector;
mod decode;
mod mark;
mod numeric;
mod ranges;
mod runs;
mod utf8;
mod white_space;

pub use ascii::is_ascii_word;
pub use classes::{
    is_alphabetic, is_alphanumeric, is_mark, is_numeric, is_placeholder_name_character,
    is_punctuation_connector, is_whitespace, is_word_character,
};
pub use decode::character_at;
pub use runs::{run_from, run_of};
pub use utf8::first_ill_formed;

// A code point and how many bytes it takes in a text.
#[derive(Clone, Copy)]
pub struct Character {
    pub code_point: u32,
    pub len: usize,
}

// The classes of which `run_of` takes runs.
#[derive(Clone, Copy)]
pub enum Class {
    Whitespace,
    Word,
    PlaceholderName,
}
