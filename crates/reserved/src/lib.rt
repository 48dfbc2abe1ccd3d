// `get_reserved_word_token` and the reserved phrases of src/tokenizer.rs.
#![tactic(auto)]

mod entries;
mod find;
mod gaps;
mod phrases;
mod words;

pub use words::get_reserved_word_token;

// What is asked of the last top-level token's alias: which of these it is exactly, if any. (As an Option of four,
// `tokenize` and `tighten` take 5 to 14 % longer where each token is a byte.)
#[derive(Clone, Copy, PartialEq, Eq)]
pub enum TopLevel {
    Select,
    Update,
    MergeInto,
    DeleteFrom,
    Other,
}
