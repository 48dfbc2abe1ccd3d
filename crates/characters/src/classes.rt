// The classes of a code point, under the names of Rust's `char` and of src/tokenizer.rs.
ghost use Rattle.std.specs.Prelude.{◌≡◌};
ghost use Rattle.characters.specs.Ranges.{in_ranges};
ghost use Rattle.characters.specs.Inner.CommonLetters.{western_letters, eastern_letters};
ghost use Rattle.characters.specs.Classes.{is_whitespace, is_alphabetic, is_numeric, is_mark, is_punctuation_connector, is_alphanumeric, is_word_character, is_placeholder_name_character};

use crate::ascii::{is_ascii_word, is_space};
use crate::ranges::within;
use crate::{alphabetic, connector, mark, numeric, white_space};

#[tactic(auto, using(crate::proofs::AsciiRule::ascii_whitespace), unfolding(crate::specs::Classes::is_whitespace))]
pub fn is_whitespace(c: u32) -> bool
    ensures { result ≡ is_whitespace c }
{
    if c < 128 {
        return is_space(c as u8);
    }
    white_space::contains(c)
}

// Latin, Greek and Cyrillic letters beyond ASCII, but for some: they need no table. (By `matches!`, which compiles to a branch for
// each range, `is_alphabetic` takes 5.2 ns of a Chinese character in place of 4.2.)
#[tactic(auto, using(std::proofs::lemmas::Bool::Decides::nat_tests), unfolding(crate::specs::Ranges::in_ranges, crate::specs::Ranges::within, crate::specs::Inner::CommonLetters::western_letters))]
#[inline(always)]
fn is_western_letter(c: u32) -> bool
    ensures { result ≡ in_ranges western_letters c }
{
    within(0xC0, 0xD6, c)
        || within(0xD8, 0xF6, c)
        || within(0xF8, 0x2C1, c)
        || within(0x3A3, 0x3F5, c)
        || within(0x3F7, 0x481, c)
}

// Kana, Chinese and Korean ones.
#[tactic(auto, using(std::proofs::lemmas::Bool::Decides::nat_tests), unfolding(crate::specs::Ranges::in_ranges, crate::specs::Ranges::within, crate::specs::Inner::CommonLetters::eastern_letters))]
#[inline(always)]
fn is_eastern_letter(c: u32) -> bool
    ensures { result ≡ in_ranges eastern_letters c }
{
    within(0x3041, 0x3096, c)
        || within(0x30A1, 0x30FA, c)
        || within(0x4E00, 0xA48C, c)
        || within(0xAC00, 0xD7A3, c)
}

#[tactic(auto, using(crate::proofs::AsciiRule::ascii_alphabetic, crate::proofs::CommonLetters::western_alphabetic, crate::proofs::CommonLetters::eastern_alphabetic), unfolding(crate::specs::Classes::is_alphabetic, crate::specs::Ascii::is_letter, crate::specs::Ranges::within))]
#[inline(always)]
pub fn is_alphabetic(c: u32) -> bool
    ensures { result ≡ is_alphabetic c }
{
    if c < 128 {
        return (c as u8).is_ascii_alphabetic();
    }
    if is_western_letter(c) {
        return true;
    }
    if is_eastern_letter(c) {
        return true;
    }
    alphabetic::contains(c)
}

#[tactic(auto, using(crate::proofs::AsciiRule::ascii_numeric), unfolding(crate::specs::Classes::is_numeric, crate::specs::Ranges::within))]
pub fn is_numeric(c: u32) -> bool
    ensures { result ≡ is_numeric c }
{
    if c < 128 {
        return (c as u8).is_ascii_digit();
    }
    numeric::contains(c)
}

// No mark is ASCII.
#[tactic(auto, using(crate::proofs::AsciiRule::ascii_mark), unfolding(crate::specs::Classes::is_mark))]
pub fn is_mark(c: u32) -> bool
    ensures { result ≡ is_mark c }
{
    if c < 128 {
        return false;
    }
    mark::contains(c)
}

#[tactic(auto, using(crate::proofs::AsciiRule::ascii_connector), unfolding(crate::specs::Classes::is_punctuation_connector))]
pub fn is_punctuation_connector(c: u32) -> bool
    ensures { result ≡ is_punctuation_connector c }
{
    if c < 128 {
        return c == 0x5F;
    }
    connector::contains(c)
}

#[tactic(auto, using(std::proofs::lemmas::Bool::Decides::nat_tests), unfolding(crate::specs::Classes::is_alphanumeric))]
#[inline(always)]
pub fn is_alphanumeric(c: u32) -> bool
    ensures { result ≡ is_alphanumeric c }
{
    is_alphabetic(c) || is_numeric(c)
}

#[tactic(auto, using(crate::proofs::AsciiRule::ascii_word), unfolding(crate::specs::Classes::is_word_character))]
#[inline(always)]
pub fn is_word_character(c: u32) -> bool
    ensures { result ≡ is_word_character c }
{
    if c < 128 {
        return is_ascii_word(c as u8);
    }
    is_alphanumeric(c) || (is_mark(c) || is_punctuation_connector(c))
}

// What `get_ident_named_placeholder_token` takes.
#[tactic(auto, using(std::proofs::lemmas::Bool::Decides::nat_tests), unfolding(crate::specs::Classes::is_placeholder_name_character))]
pub fn is_placeholder_name_character(c: u32) -> bool
    ensures { result ≡ is_placeholder_name_character c }
{
    is_alphanumeric(c) || matches!(c, 0x2E | 0x5F | 0x24)
}
