// Runs of characters of one class.
ghost use Rattle.std.specs.Prelude.{◌≡◌, ◌&&◌, ltb, drop};
ghost use Rattle.std.specs.Bool.{then_some};
ghost use Rattle.characters.specs.Character.{code_point, character_length};
ghost use Rattle.characters.specs.Runs.{in_class, run};
ghost use Rattle.characters.specs.Inner.RunAt.{RunAt};

use crate::Class;
use crate::ascii::{is_ascii_name, is_ascii_word, is_space};
use crate::classes::{is_placeholder_name_character, is_whitespace, is_word_character};
use crate::decode::character_at;

#[tactic(auto, unfolding(crate::specs::Runs::in_class))]
#[inline(always)]
fn contains(class: Class, c: u32) -> bool
    ensures { result ≡ in_class class c }
{
    match class {
        Class::Whitespace => is_whitespace(c),
        Class::Word => is_word_character(c),
        Class::PlaceholderName => is_placeholder_name_character(c),
    }
}

// An ASCII character of the class. (By `contains` behind a test for ASCII a long word takes half as long again.)
#[tactic(auto, using(crate::proofs::AsciiRule::space_byte, crate::proofs::AsciiRule::word_byte, crate::proofs::AsciiRule::ascii_name_byte), unfolding(crate::specs::Runs::in_class))]
fn ascii_contains(class: Class, b: u8) -> bool
    ensures { result ≡ (ltb b 128 && in_class class b) }
{
    match class {
        Class::Whitespace => is_space(b),
        Class::Word => is_ascii_word(b),
        Class::PlaceholderName => is_ascii_name(b),
    }
}

// How many bytes the character at i takes where it is of the class. None stands at the end.
#[tactic(auto, using(crate::proofs::RunLaws::step_ascii, crate::proofs::RunLaws::step_wide, crate::proofs::RunLaws::step_end))]
#[inline(always)]
fn step(bytes: &[u8], i: usize, class: Class) -> Option<usize>
    ensures { result ≡ then_some (in_class class (code_point (drop i bytes.now))) (character_length (drop i bytes.now)) }
{
    let b = *bytes.get(i)?;
    if b < 128 {
        return ascii_contains(class, b).then_some(1);
    }
    let c = character_at(bytes, i);
    contains(class, c.code_point).then_some(c.len)
}

// The run of `run_of`, from a place that it reaches on. By `while let`, since a turn passes one to four bytes, which no range counts.
#[tactic(auto, using(crate::proofs::RunLaws::run_fits, crate::proofs::RunLaws::run_shorter, crate::proofs::RunLaws::run_stop))]
pub fn run_from(bytes: &[u8], from: usize, class: Class) -> usize
    requires { RunAt class bytes.now from }
    ensures { result ≡ run (in_class class) 0 bytes.now }
{
    let mut i = from;
    while let Some(n) = step(bytes, i, class) {
        i += n;
    }
    i
}

// How many bytes the characters of the class take at the start. ASCII bytes are passed here: by `run_from` alone, the wide
// gaps behind END of bench/reading.rs take 5.3 ns a byte and not 1.8.
#[tactic(auto, using(crate::proofs::RunLaws::byte_more, crate::proofs::RunLaws::byte_stop, crate::proofs::RunLaws::run_all))]
pub fn run_of(bytes: &[u8], class: Class) -> usize
    ensures { result ≡ run (in_class class) 0 bytes.now }
{
    for (i, &b) in bytes.iter().enumerate() {
        if !ascii_contains(class, b) {
            return if b < 128 {
                i
            } else {
                run_from(bytes, i, class)
            };
        }
    }
    bytes.len()
}
