// What an ASCII character is, by rule.
ghost use Rattle.std.specs.Prelude.{◌≡◌};
ghost use Rattle.characters.specs.Ascii.{is_space, is_ascii_word, is_ascii_name};

#[tactic(auto, using(std::proofs::lemmas::Bool::Decides::nat_tests), unfolding(crate::specs::Ascii::is_space, crate::specs::Ranges::within))]
pub fn is_space(b: u8) -> bool
    ensures { result ≡ is_space b }
{
    matches!(b, b'\t'..=b'\r' | b' ')
}

// A word character that is ASCII, letters first: as `is_ascii_alphanumeric() || ..` a word takes 1.7 ns a byte and not 0.6.
#[tactic(auto, using(std::proofs::lemmas::Bool::Decides::nat_tests), unfolding(crate::specs::Ascii::is_ascii_word, crate::specs::Ascii::is_letter, crate::specs::Ranges::within))]
pub fn is_ascii_word(b: u8) -> bool
    ensures { result ≡ is_ascii_word b }
{
    b.is_ascii_alphabetic() || (b.is_ascii_digit() || b == b'_')
}

// A placeholder-name character that is ASCII, word characters first: as `is_ascii_alphanumeric() || ..` the name `$a$a..` takes 1.8
// ns a byte and not 0.8.
#[tactic(auto, using(std::proofs::lemmas::Bool::Decides::nat_tests), unfolding(crate::specs::Ascii::is_ascii_name))]
pub fn is_ascii_name(b: u8) -> bool
    ensures { result ≡ is_ascii_name b }
{
    is_ascii_word(b) || matches!(b, b'.' | b'$')
}
