// A script of several searches, cut into its parts.
#![tactic(auto)]

mod cutting;
mod ending;
mod parts;
mod places;

pub use cutting::cut;
pub use parts::cutter_settings;

// A part of a script, by its place: start and length, as `cut` writes it.
#[derive(Clone, Copy)]
pub struct Part {
    pub start: usize,
    pub len: usize,
}
