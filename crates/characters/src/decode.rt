// The character at a place of a text.
ghost use Rattle.std.specs.Prelude.{◌≡◌, ◌<◌, length, drop};
ghost use Rattle.characters.specs.Character.{is_continuation, continuations, first_bits, character};

use crate::Character;

#[tactic(auto, using(std::proofs::lemmas::Bool::Decides::nat_tests), unfolding(crate::specs::Character::is_continuation, crate::specs::Ranges::within))]
fn is_continuation(b: u8) -> bool
    ensures { result ≡ is_continuation b }
{
    matches!(b, 0x80..=0xBF)
}

// Unicode's table 3-6: a value for each range of first bytes.
#[tactic(auto, using(std::proofs::lemmas::Bool::Decides::nat_tests), unfolding(crate::specs::Character::continuations))]
fn continuations_of(first: u8) -> usize
    ensures { result ≡ continuations first }
{
    match first {
        0x00..=0xBF => 0,
        0xC0..=0xDF => 1,
        0xE0..=0xEF => 2,
        0xF0..=0xFF => 3,
    }
}

// The same table: what a row's first byte has beside its mark.
#[tactic(auto, using(std::proofs::lemmas::Bool::Decides::nat_tests), unfolding(crate::specs::Character::first_bits))]
fn first_bits(first: u8) -> u32
    ensures { result ≡ first_bits first }
{
    u32::from(match first {
        0x00..=0x7F => first,
        0x80..=0xBF => 0,
        0xC0..=0xDF => first - 0xC0,
        0xE0..=0xEF => first - 0xE0,
        0xF0..=0xFF => first - 0xF0,
    })
}

// The character at the start of some bytes. Total, as its definition: no Option, since what is no character is in no class. (Its bytes by
// number: where one fails, that is the length.)
#[tactic(auto, using(crate::proofs::Decoding::decode_start, crate::proofs::Decoding::decode_shift, crate::proofs::Decoding::decode_add, crate::proofs::Decoding::decode_stop, crate::proofs::Decoding::decode_cut, crate::proofs::Decoding::decode_end))]
fn first_character(bytes: &[u8]) -> Character
    requires { 0 < length bytes.now }
    ensures { result ≡ character bytes.now }
{
    let first = bytes[0];
    let wanted = continuations_of(first);
    let mut code_point = first_bits(first);
    for i in 0..wanted {
        match bytes.get(i + 1) {
            Some(&b) if is_continuation(b) => code_point = code_point * 64 + u32::from(b % 64),
            _ => {
                return Character {
                    code_point: 0,
                    len: i + 1,
                };
            }
        }
    }
    Character {
        code_point,
        len: wanted + 1,
    }
}

// The character at a place of a text; past the text's end it has no bytes. Most are ASCII, and are told without a call.
#[inline(always)]
#[tactic(auto, using(crate::proofs::RunLaws::ascii_character, crate::proofs::Decoding::decode_past))]
pub fn character_at(text: &[u8], at: usize) -> Character
    ensures { result ≡ character (drop at text.now) }
{
    if text.len() <= at {
        return Character {
            code_point: 0,
            len: 0,
        };
    }
    let b = text[at];
    if b < 128 {
        return Character {
            code_point: u32::from(b),
            len: 1,
        };
    }
    first_character(&text[at..])
}
