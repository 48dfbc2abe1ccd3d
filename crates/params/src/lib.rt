// src/params.rs: the value sheet, `Params::get` over it, `fill` and `lookup`.
#![tactic(auto)]

mod accepting;
mod entries;
mod filling;
mod getting;
mod headed;
mod keys;
mod longest;
mod looking;
mod nought;
mod parts;
mod sheet;
mod text;

pub use filling::fill;
pub use looking::{lookup, lookup_part};
pub use sheet::is_sheet;

// What a sheet holds: the Rust's own enum, in which None is a kind of its own.
#[derive(Clone, Copy)]
pub enum QueryParams {
    None,
    Named,
    Indexed,
}

// An entry's place in a sheet: its number, where its lengths start and where its bodies start. By numbers, as the definition of a sheet
// has them.
#[derive(Clone, Copy)]
pub struct Place {
    pub entry: usize,
    pub lengths: usize,
    pub body: usize,
}

// The lengths of an entry's name and value.
#[derive(Clone, Copy)]
pub struct Lengths {
    pub name: usize,
    pub value: usize,
}

// A part of the statement or a part of the sheet: both are sources, and neither is none.
#[derive(Clone, Copy)]
pub enum Part {
    Statement { start: usize, len: usize },
    Sheet { start: usize, len: usize },
}

// What a lookup gives: a part, and the counter past it.
#[derive(Clone, Copy)]
pub struct Found {
    pub part: Part,
    pub counter: u64,
}
