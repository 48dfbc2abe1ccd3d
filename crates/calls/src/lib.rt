// What every call shares: settings, refusals, the checks that come first, a text put into an output, numbers as bytes, copying.
#![tactic(auto)]

ghost use Rattle.std.specs.Prelude.{◌≤◌, length};

use recognisers::Dialect;

mod checking;
mod copying;
mod little_endian;
mod refusals;
mod texts;
mod writing;

pub use checking::check;
pub use copying::put_bytes;
pub use little_endian::{le_at, put_le, put_words};
pub use texts::numbers_of;
pub use writing::{Text, write_text};

#[derive(Clone, Copy)]
pub struct Settings {
    pub dialect: Dialect,
    pub joins: bool,
    pub named: bool,
}

// A statement that a call accepts, and how it is read.
#[derive(Clone, Copy)]
pub struct Search<'a> {
    pub text: &'a [u8],
    pub settings: Settings,
    pub ghost short: { length text.now ≤ 65536 },
}

// Why a call is turned away. What it answers on success is its own.
#[derive(Clone, Copy, Debug, PartialEq, Eq)]
pub enum Refusal {
    Overlong(u64),
    NotUtf8(u64),
    Setting,
    TableFull(u64),
    Sheet,
    OutputFull(u64),
    PartsFull(u64),
    PlaceNought(u64),
}
