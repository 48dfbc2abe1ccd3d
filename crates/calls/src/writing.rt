// A text written into an output that the caller lends.
ghost use Rattle.std.specs.Prelude.{◌≡◌, ◌≤◌, ℕ, List, length};
ghost use Rattle.calls.specs.Texts.{text_answer, text_after, written_over};

use crate::Refusal;

// What gives a text: the most that it can have is known at once, its length by a pass over all that it is made of.
pub trait Text: Copy {
    ghost text: { Self → List ℕ };

    fn most(self) -> usize
        ensures { length (text self) ≤ result };

    fn length(self) -> usize
        ensures { result ≡ length (text self) };

    // How many bytes were written.
    fn write(self, output: &mut [u8]) -> usize
        requires { length (text self) ≤ length output.old }
        ensures value { result ≡ length (text self) }
        ensures output_after { output.new ≡ written_over (text self) output.old };
}

// Where the output may be too short it is measured first: into one that is full nothing may be written.
#[tactic(auto, unfolding(crate::specs::Texts::text_answer, crate::specs::Texts::text_after))]
pub fn write_text<T: Text>(given: T, output: &mut [u8]) -> Result<u64, Refusal>
    ensures value { result ≡ text_answer (T.text given) (length output.old) }
    ensures output_after { output.new ≡ text_after (T.text given) output.old }
{
    if output.len() < given.most() {
        let needed = given.length();
        if output.len() < needed {
            return Err(Refusal::OutputFull(needed as u64));
        }
    }
    Ok(given.write(output) as u64)
}
