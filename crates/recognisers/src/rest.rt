// The rest of a statement from the present token on.
ghost use Rattle.recognisers.specs.Inner.Known.{Truthful};
ghost use Rattle.recognisers.specs.Inner.KnownOnce.{truthful_once};

use crate::Dialect;
use crate::hints::Hints;

// What failed looks have told of the statement goes along with each rest of it.
#[derive(Clone, Copy)]
pub struct Rest<'a> {
    pub text: &'a [u8],
    pub dialect: Dialect,
    pub hints: &'a Hints,
    pub ghost truthful: { Truthful hints.now text.now } by { truthful_once hints.now text.now },
}

impl<'a> Rest<'a> {
    ghost use Rattle.std.specs.Prelude.{◌≡◌, ◌≤◌, length, drop};

    // What stands behind the first n bytes.
    #[inline(always)]
    pub fn behind(self, n: usize) -> Self
        requires { n ≤ length self.text.now }
        ensures text_is { result.text.now ≡ drop n self.entry.text.now }
        ensures dialect_is { result.dialect ≡ self.entry.dialect }
        ensures hints_are { result.hints ≡ self.entry.hints }
    {
        Rest {
            text: &self.text[n..],
            dialect: self.dialect,
            hints: self.hints,
        }
    }
}
