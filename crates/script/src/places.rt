// Places of parts: two 32-bit words, the lowest byte first.
ghost use Rattle.std.specs.Prelude.{◌≡◌, ◌+◌, ◌≤◌, length};
ghost use Rattle.std.proofs.lemmas.List.Edits.{sets};
ghost use Rattle.script.specs.Places.{places_of};
ghost use Rattle.script.specs.Inner.Ended.{ended_at};

use crate::ending::ends_part;
use calls::put_words;
use tokenizer::PlacedToken;

pub const PLACE_BYTES: usize = 8;

// The place of the part that ends with a token, where one does; where the next place goes.
#[tactic(auto, unfolding(crate::specs::Inner::Ended::ended_at, crate::specs::Places::places_of, crate::specs::Places::place_of, calls::specs::LittleEndian::words_of), using(crate::proofs::PartWalk::places_length))]
pub fn put_ended(from: usize, token: PlacedToken<'_>, places: &mut [u8], at: usize) -> usize
    requires order { from ≤ token.token.start + token.token.len }
    requires room { at + length (places_of (ended_at token.statement.now from token.token)) ≤ length places.old }
    ensures value { result ≡ at + length (places_of (ended_at token.entry.statement.now from token.entry.token)) }
    ensures places_after { places.new ≡ sets places.old at (places_of (ended_at token.entry.statement.now from token.entry.token)) }
{
    if ends_part(token) {
        let end = token.end();
        put_words(places, at, &[from as u64, (end - from) as u64]);
        return at + PLACE_BYTES;
    }
    at
}
