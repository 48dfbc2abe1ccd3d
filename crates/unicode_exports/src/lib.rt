// The functions of `characters` for tests and benchmarks that are written in Rust, one by one: they link libunicode_exports.a. The
// product's own boundary is another crate.
#![tactic(auto)]

ghost use Rattle.std.specs.Prelude.{◌≡◌, length, drop};
ghost use Rattle.characters.specs.Classes.{is_whitespace, is_alphabetic, is_numeric, is_mark, is_punctuation_connector, is_alphanumeric, is_word_character, is_placeholder_name_character};
ghost use Rattle.characters.specs.Utf8.{first_ill_formed};
ghost use Rattle.characters.specs.Character.{code_point, character_length};
ghost use Rattle.unicode_exports.specs.Place.{place_or};

#[unsafe(no_mangle)]
pub extern "C" fn unicode_first_ill_formed(text: &[u8]) -> usize
    ensures { result ≡ place_or (first_ill_formed text.now) (length text.now) }
{
    characters::first_ill_formed(text).unwrap_or(text.len())
}

#[tactic(auto, unfolding(characters::specs::Character::character))]
#[unsafe(no_mangle)]
pub extern "C" fn unicode_code_point(text: &[u8], at: usize) -> u32
    ensures { result ≡ code_point (drop at text.now) }
{
    characters::character_at(text, at).code_point
}

#[tactic(auto, unfolding(characters::specs::Character::character))]
#[unsafe(no_mangle)]
pub extern "C" fn unicode_character_length(text: &[u8], at: usize) -> usize
    ensures { result ≡ character_length (drop at text.now) }
{
    characters::character_at(text, at).len
}

#[unsafe(no_mangle)]
pub extern "C" fn unicode_is_whitespace(c: u32) -> bool
    ensures { result ≡ is_whitespace c }
{
    characters::is_whitespace(c)
}

#[unsafe(no_mangle)]
pub extern "C" fn unicode_is_alphabetic(c: u32) -> bool
    ensures { result ≡ is_alphabetic c }
{
    characters::is_alphabetic(c)
}

#[unsafe(no_mangle)]
pub extern "C" fn unicode_is_numeric(c: u32) -> bool
    ensures { result ≡ is_numeric c }
{
    characters::is_numeric(c)
}

#[unsafe(no_mangle)]
pub extern "C" fn unicode_is_mark(c: u32) -> bool
    ensures { result ≡ is_mark c }
{
    characters::is_mark(c)
}

#[unsafe(no_mangle)]
pub extern "C" fn unicode_is_punctuation_connector(c: u32) -> bool
    ensures { result ≡ is_punctuation_connector c }
{
    characters::is_punctuation_connector(c)
}

#[unsafe(no_mangle)]
pub extern "C" fn unicode_is_alphanumeric(c: u32) -> bool
    ensures { result ≡ is_alphanumeric c }
{
    characters::is_alphanumeric(c)
}

#[unsafe(no_mangle)]
pub extern "C" fn unicode_is_word_character(c: u32) -> bool
    ensures { result ≡ is_word_character c }
{
    characters::is_word_character(c)
}

#[unsafe(no_mangle)]
pub extern "C" fn unicode_is_placeholder_name_character(c: u32) -> bool
    ensures { result ≡ is_placeholder_name_character c }
{
    characters::is_placeholder_name_character(c)
}
