// The parts of a whole script: how many there are, and their places.
ghost use Rattle.std.specs.Prelude.{◌≡◌, ◌+◌, ◌≤◌, length};
ghost use Rattle.calls.specs.Texts.{written_over};
ghost use Rattle.tokenizer.specs.Inner.Inside.{key_end};
ghost use Rattle.script.specs.Settings.{cutter_settings};
ghost use Rattle.script.specs.Parts.{part_text, parts};
ghost use Rattle.script.specs.Places.{places_of};

use crate::Part;
use crate::ending::{ends_part, start_past};
use crate::places::{PLACE_BYTES, put_ended};
use calls::Settings;
use recognisers::Dialect;
use tokenizer::{PlacedToken, Tokens};

impl Part {
    pub fn text(self, script: &[u8]) -> &[u8]
        requires { self.start + self.len ≤ length script.now }
        ensures { result.now ≡ part_text script.now self }
    {
        let end = self.start + self.len;
        &script[self.start..end]
    }
}

pub fn cutter_settings() -> Settings
    ensures { result ≡ cutter_settings }
{
    Settings {
        dialect: Dialect::Generic,
        joins: false,
        named: false,
    }
}

pub fn count_parts(script: &[u8]) -> usize
    ensures { result ≡ length (parts script.now) }
{
    Tokens::new(script, cutter_settings())
        .filter(
            |token|
                requires text_inside { token.now.start + token.now.len ≤ length script.now }
                requires key_inside { key_end token.now.key ≤ length script.now }
            {
                ends_part(PlacedToken {
                    statement: script,
                    token: *token,
                })
            },
        )
        .count()
}

// How many places were written.
pub fn write_parts(script: &[u8], places: &mut [u8]) -> usize
    requires { length (places_of (parts script.now)) ≤ length places.old }
    ensures value { result ≡ length (parts script.now) }
    ensures places_after { places.new ≡ written_over (places_of (parts script.now)) places.old }
{
    let mut at = 0;
    let mut from = 0;
    for token in Tokens::new(script, cutter_settings()) {
        let placed = PlacedToken {
            statement: script,
            token,
        };
        at = put_ended(from, placed, places, at);
        from = start_past(from, placed);
    }
    at / PLACE_BYTES
}
