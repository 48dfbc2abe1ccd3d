// UTF-8 as the Unicode Standard defines it, table 3-7.
ghost use Rattle.std.specs.Prelude.{◌≡◌};
ghost use Rattle.characters.specs.Utf8.{first_ill_formed};

// Where the text's first ill-formed sequence starts: the library's check, which goes by the table (proofs/LibraryUtf8.antt).
#[tactic(auto, using(crate::proofs::LibraryUtf8::valid_len_is, crate::proofs::LibraryUtf8::text_formed, std::proofs::lemmas::Bool::Decides::nat_tests), unfolding(crate::specs::Utf8::first_ill_formed))]
pub fn first_ill_formed(text: &[u8]) -> Option<usize>
    ensures { result ≡ first_ill_formed text.now }
{
    let error = std::str::from_utf8(text).err()?;
    Some(error.valid_up_to())
}
