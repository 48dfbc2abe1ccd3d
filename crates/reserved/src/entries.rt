// An entry of the table of reserved phrases.

// Which token a phrase makes. `Dropped` is top level too, with IF EXISTS behind it or not.
#[derive(Clone, Copy, PartialEq, Eq)]
pub enum Group {
    TopLevel,
    Dropped,
    NewlineAfter,
    Newline,
    Join,
    NoIndent,
    Plain,
}

// A phrase's words behind its group.
#[derive(Clone, Copy)]
pub struct Entry(pub Group, pub &'static str);
