// `fill`: the filled text of a statement, into an output that the caller lends.
ghost use Rattle.std.specs.Prelude.{◌≡◌, length};
ghost use Rattle.params.specs.Answers.{fill_answer, fill_output};
ghost use Rattle.params.specs.Inner.Noughts.{measured, unless_full};

use crate::accepting::Filling;
use crate::longest::most_filled;
use crate::nought::may_hold_nought;
use crate::text::{measure, write_filled};
use calls::Refusal;

// What is refused of the text itself: it is measured where a place nought may stand or the output may be too short.
#[tactic(auto, using(crate::proofs::FillAnswers::fits_unmeasured))]
#[inline(never)]
fn check_text(filling: Filling<'_>, room: usize) -> Result<(), Refusal>
    ensures { result ≡ unless_full room (measured filling.entry) }
{
    if room < most_filled(filling) || may_hold_nought(filling) {
        let needed = measure(filling)?;
        if room < needed {
            return Err(Refusal::OutputFull(needed as u64));
        }
    }
    Ok(())
}

#[tactic(auto, unfolding(calls::specs::Texts::call_answer, calls::specs::Texts::call_output, crate::specs::Answers::fill_checked), using(crate::proofs::FillAnswers::has_room, crate::proofs::FillAnswers::refused_answer, crate::proofs::FillAnswers::refused_output, crate::proofs::FillAnswers::written_answer, crate::proofs::FillAnswers::written_output))]
pub fn fill(
    statement: &[u8],
    dialect: u64,
    joins: u64,
    named: u64,
    sheet: &[u8],
    output: &mut [u8],
) -> Result<u64, Refusal>
    ensures value { result ≡ fill_answer statement.now dialect joins named sheet.now (length output.old) }
    ensures output_after { output.new ≡ fill_output statement.now dialect joins named sheet.now output.old }
{
    let filling = Filling::check(statement, dialect, joins, named, sheet)?;
    check_text(filling, output.len())?;
    Ok(write_filled(filling, output) as u64)
}
