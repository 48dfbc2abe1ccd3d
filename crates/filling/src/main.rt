// Reads a value sheet and a statement from standard input, makes the default call (Generic, joins 0, named placeholders 0)
// and prints the filled text and nothing else; or `refused` and the number, which is fill's for the whole of both, however
// long they are. The input is a sheet's length in 4 bytes, the lowest first, then so many bytes of sheet, then the statement up
// to the end. Where there are fewer bytes than that length says, all of them are the sheet and the statement is empty; where
// there are fewer than 4, these are the sheet. The output has 131,072 bytes: a longer text is `refused 6`.
//
// Of sheet and statement one byte more than each may have is kept, by which fill refuses as for the whole. What a sheet has
// beyond that is read past, since the statement behind it decides whether 1 or 2 comes before the sheet's 5.
#![tactic(auto)]

ghost use Rattle.std.specs.Prelude.{◌≡◌, ◌≤◌, ◌<◌, Some, IfSome, IfOk, OnOk, length, take};
ghost use Rattle.std.specs.Io.{ReadsAtMost};
ghost use Rattle.std.specs.Io.KnownBytes.{Appends, Consumes, IsAtEnd};
ghost use Rattle.filling.specs.Input.{Skips, sheet_of, statement_of};
ghost use Rattle.filling.specs.Printed.{fill_printed};

use calls::le_at;
use console::{TEXT_SPACE, print_answer, read_text, zeroed};
use params::fill;
use std::io;
use std::io::{Read, Write};

#[tactic(auto, using(console::proofs::AnswersInside::answer_inside, console::proofs::AnswersInside::answer_printed))]
fn print_filled<W: Write>(
    output: &mut W,
    statement: &[u8],
    sheet: &[u8],
    space: &mut [u8],
) -> io::Result<()>
    ensures { OnOk result (Appends (W.contents output.old) (W.contents output.new) (fill_printed statement.now sheet.now (length space.old))) }
{
    let answer = fill(statement, 0, 0, 0, sheet, space);
    print_answer(output, answer, space)
}

// Reads at most so many bytes to the start of `space`, where they have the room, and answers how many there were.
fn read_up_to<R: Read>(input: &mut R, most: usize, space: &mut [u8]) -> io::Result<usize>
    ensures upper_bound { IfOk result (λ n. n ≤ most) }
    ensures prefix_len { ReadsAtMost result space.new }
    ensures bytes { IfOk result (λ n. Consumes (R.remaining input.old) (R.remaining input.new) (take n space.new)) }
    ensures end { IfOk result (λ n. n < most → n < length space.new → IsAtEnd (R.remaining input.new)) }
{
    let len = most.min(space.len());
    read_text(input, &mut space[..len])
}

// Reads at most so many bytes, keeps none, and answers how many there were.
fn read_past_piece<R: Read>(input: &mut R, most: usize) -> io::Result<usize>
    ensures upper_bound { IfOk result (λ n. n ≤ most) }
    ensures bytes { IfOk result (λ n. Skips (R.remaining input.old) (R.remaining input.new) n) }
    ensures end { IfOk result (λ n. n ≡ 0 → 0 < most → IsAtEnd (R.remaining input.new)) }
{
    let mut space = [0; 65536];
    read_up_to(input, most, &mut space)
}

// Reads past so many bytes, or to the end of the input. A `while`: a turn reads what the input gives.
#[tactic(auto, using(crate::proofs::Skipping::skips_end))]
fn read_past<R: Read>(input: &mut R, count: usize) -> io::Result<()>
    ensures { OnOk result (Skips (R.remaining input.old) (R.remaining input.new) count) }
{
    let mut left = count;
    while left > 0 {
        let n = read_past_piece(input, left)?;
        if n == 0 {
            return Ok(());
        }
        left -= n;
    }
    Ok(())
}

// Reads the sheet's length and the whole sheet, and answers how many bytes of it are kept.
fn read_sheet<R: Read>(input: &mut R, kept: &mut [u8]) -> io::Result<usize>
    ensures prefix_len { ReadsAtMost result kept.new }
    ensures sheet { 4 ≤ length kept.new → IfOk result (λ n. IfSome (R.remaining input.old) (λ xs. take n kept.new ≡ take (length kept.new) (sheet_of xs))) }
    ensures statement { 4 ≤ length kept.new → OnOk result (IfSome (R.remaining input.old) (λ xs. R.remaining input.new ≡ Some (statement_of xs))) }
{
    let n = read_up_to(input, 4, kept)?;
    if n < 4 {
        return Ok(n);
    }
    let len = le_at::<4>(kept, 0);
    let got = read_up_to(input, len, kept)?;
    read_past(input, len - got)?;
    Ok(got)
}

fn answer<R: Read, W: Write>(input: &mut R, output: &mut W) -> io::Result<()>
    ensures { OnOk result (IfSome (R.remaining input.old) (λ whole.
        Appends (W.contents output.old) (W.contents output.new) (fill_printed (statement_of whole) (sheet_of whole) 131072))) }
{
    let mut sheet = zeroed::<TEXT_SPACE>();
    let mut statement = zeroed::<TEXT_SPACE>();
    let mut space = zeroed::<131072>();
    let sheet_len = read_sheet(input, &mut sheet)?;
    let len = read_text(input, &mut statement)?;
    print_filled(output, &statement[..len], &sheet[..sheet_len], &mut space)
}

// A program needs a `main` of its own. Ends with the error where standard input or standard output fails.
fn main(rt: HostRuntime) -> io::Result<()> {
    answer(&mut rt.stdin(), &mut rt.stdout())
}
