// Reads a statement from standard input, reads it with the default settings (Generic, joins 0, named placeholders 0), and
// prints a line with the count of tokens and the eight fields of each record; or `refused` and the number.
#![tactic(auto)]

ghost use Rattle.std.specs.Prelude.{IfSome, OnOk};
ghost use Rattle.std.specs.Io.KnownBytes.{Appends};
ghost use Rattle.listing.specs.Printed.{listing_printed};

use calls::check;
use console::{TEXT_SPACE, read_text, zeroed};
use std::io;
use std::io::{Read, Write};
use token_lines::print_list;

#[tactic(auto, unfolding(crate::specs::Printed::listing_printed))]
fn print_listing<W: Write>(output: &mut W, statement: &[u8]) -> io::Result<()>
    ensures { OnOk result (Appends (W.contents output.old) (W.contents output.new) (listing_printed statement.now)) }
{
    match check(statement, 0, 0, 0) {
        Ok(search) => print_list(output, search.text, search.settings),
        Err(refusal) => writeln!(output, "{refusal}"),
    }
}

// Of a longer statement than a call accepts enough is read that it is refused as the whole is. The buffers and the call are each
// program's own: one function for all would take both, and be no plainer.
fn answer<R: Read, W: Write>(input: &mut R, output: &mut W) -> io::Result<()>
    ensures { OnOk result (IfSome (R.remaining input.old) (λ statement. Appends (W.contents output.old) (W.contents output.new) (listing_printed statement))) }
{
    let mut space = zeroed::<TEXT_SPACE>();
    let n = read_text(input, &mut space)?;
    print_listing(output, &space[..n])
}

// A program needs a `main` of its own. Ends with the error where standard input or standard output fails.
fn main(rt: HostRuntime) -> io::Result<()> {
    answer(&mut rt.stdin(), &mut rt.stdout())
}
