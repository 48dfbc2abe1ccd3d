// Reads a statement from standard input, makes the default call (Generic, joins 0, named placeholders 0) and prints the tight
// text and nothing else; or `refused` and the number.
#![tactic(auto)]

ghost use Rattle.std.specs.Prelude.{IfSome, OnOk, length};
ghost use Rattle.std.specs.Io.KnownBytes.{Appends};
ghost use Rattle.tight_text.specs.Printed.{tight_printed};

use console::{TEXT_SPACE, print_answer, read_text, zeroed};
use std::io;
use std::io::{Read, Write};
use tight::tighten;

#[tactic(auto, using(console::proofs::AnswersInside::answer_inside, console::proofs::AnswersInside::answer_printed))]
fn print_tight<W: Write>(output: &mut W, statement: &[u8], space: &mut [u8]) -> io::Result<()>
    ensures { OnOk result (Appends (W.contents output.old) (W.contents output.new) (tight_printed statement.now (length space.old))) }
{
    let answer = tighten(statement, 0, 0, 0, space);
    print_answer(output, answer, space)
}

// Of a longer statement than a call accepts enough is read that it is refused as the whole is. The buffers and the call are each
// program's own: one function for all would take both, and be no plainer.
fn answer<R: Read, W: Write>(input: &mut R, output: &mut W) -> io::Result<()>
    ensures { OnOk result (IfSome (R.remaining input.old) (λ statement.
        Appends (W.contents output.old) (W.contents output.new) (tight_printed statement 65537))) }
{
    let mut statement = zeroed::<TEXT_SPACE>();
    // A tight text is no longer than its statement.
    let mut space = zeroed::<TEXT_SPACE>();
    let n = read_text(input, &mut statement)?;
    print_tight(output, &statement[..n], &mut space)
}

// A program needs a `main` of its own. Ends with the error where standard input or standard output fails.
fn main(rt: HostRuntime) -> io::Result<()> {
    answer(&mut rt.stdin(), &mut rt.stdout())
}
