// The tight text of a statement: its tokens' values, with one byte or none for each gap.
#![tactic(auto)]

mod adding;
mod gaps;
mod returning;
mod text;
mod tightening;

use recognisers::TokenKind;
pub use tightening::tighten;

// What a gap becomes that doesn't become nothing.
#[derive(Clone, Copy)]
pub enum Gap {
    LineFeed,
    Space,
    Return,
}

// Where the next gap stands: behind a token of this kind, if there was one; and what the gap just passed became.
#[derive(Clone, Copy, Default)]
pub struct Spacing {
    pub here: Option<TokenKind>,
    pub lead: Option<Gap>,
}
