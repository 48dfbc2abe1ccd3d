// `tighten`: the tight text of a statement, into an output that the caller lends.
ghost use Rattle.std.specs.Prelude.{◌≡◌, length};
ghost use Rattle.tight.specs.Inner.Searches.{text_of};
ghost use Rattle.tight.specs.Answers.{tighten_answer, tighten_output};

use crate::text::{tight_length, write_tight};
use calls::{Refusal, Search, Text, check, write_text};

// A search whose tight text is asked for.
#[derive(Clone, Copy)]
struct Tightening<'a> {
    search: Search<'a>,
}

// A tight text is no longer than its statement.
impl<'a> Text for Tightening<'a> {
    ghost text = { λ tightening. text_of tightening.search };

    #[tactic(auto, using(crate::proofs::TightShort::tight_short))]
    fn most(self) -> usize {
        self.search.text.len()
    }

    fn length(self) -> usize {
        tight_length(self.search)
    }

    fn write(self, output: &mut [u8]) -> usize {
        write_tight(self.search, output)
    }
}

// The boundary for C has this as it has `tokenize`: an output of bytes, and an answer of one number.
#[tactic(auto, unfolding(calls::specs::Texts::call_answer, calls::specs::Texts::call_output))]
pub fn tighten(
    statement: &[u8],
    dialect: u64,
    joins: u64,
    named: u64,
    output: &mut [u8],
) -> Result<u64, Refusal>
    ensures value { result ≡ tighten_answer statement.now dialect joins named (length output.old) }
    ensures output_after { output.new ≡ tighten_output statement.now dialect joins named output.old }
{
    let search = check(statement, dialect, joins, named)?;
    write_text(Tightening { search }, output)
}
