// A rest whose first word is measured.
ghost use Rattle.std.specs.Prelude.{◌≡◌};
ghost use Rattle.recognisers.specs.Inner.WordLength.{word_length};

// A rest, and how many ASCII word characters stand at its start.
#[derive(Clone, Copy)]
pub struct WordAhead<'a> {
    pub rest: &'a [u8],
    pub len: usize,
    pub ghost measured: { len ≡ word_length rest.now },
}

impl<'a> WordAhead<'a> {
    #[inline(always)]
    pub fn of(rest: &'a [u8]) -> Self
        ensures { result.rest.now ≡ rest.now }
    {
        let end = rest.iter().position(|b| !characters::is_ascii_word(*b));
        WordAhead {
            rest,
            len: end.unwrap_or(rest.len()),
        }
    }
}
