// Reads a script of several searches from standard input and cuts it into its parts. Of each part it prints a line with start and
// length, and then the part's tokens as `listing` prints those of a statement, when the part is read alone: their places count from
// the part's start. Script and parts are read with the cutter's settings (Generic, joins 0, named placeholders 0). Of a script
// that is refused it prints `refused` and the number.
#![tactic(auto)]

ghost use Rattle.std.specs.Prelude.{◌≡◌, ◌+◌, ◌*◌, ◌≤◌, IfSome, OnOk, length, take};
ghost use Rattle.std.specs.Io.KnownBytes.{Appends};
ghost use Rattle.script.specs.Parts.{parts};
ghost use Rattle.script.specs.Places.{places_of};
ghost use Rattle.cutting.specs.Inner.{part_at};
ghost use Rattle.cutting.specs.Printed.{place_line, part_printed, parts_printed, cutting_printed};

use calls::le_at;
use console::{TEXT_SPACE, read_text, zeroed};
use script::{Part, cut, cutter_settings};
use std::io;
use std::io::{Read, Write};
use token_lines::print_list;

// As `cut` writes it.
fn part_at(place: &[u8]) -> Part
    requires { 8 ≤ length place.now }
    ensures { result ≡ part_at place.now }
{
    Part {
        start: le_at::<4>(place, 0),
        len: le_at::<4>(place, 4),
    }
}

// By a function: a `Display` would have to stand beside `Part`, in a crate that prints nothing.
fn print_place<W: Write>(output: &mut W, part: Part) -> io::Result<()>
    ensures { OnOk result (Appends (W.contents output.old) (W.contents output.new) (place_line part)) }
{
    let (start, len) = (part.start, part.len);
    writeln!(output, "{start} {len}")
}

#[tactic(auto, unfolding(crate::specs::Printed::part_printed))]
fn print_part<W: Write>(output: &mut W, script: &[u8], part: Part) -> io::Result<()>
    requires { part.start + part.len ≤ length script.now }
    ensures { OnOk result (Appends (W.contents output.old) (W.contents output.new) (part_printed script.now part)) }
{
    print_place(output, part)?;
    print_list(output, part.text(script), cutter_settings())
}

fn print_parts<W: Write>(
    output: &mut W,
    script: &[u8],
    places: &[u8],
    count: usize,
) -> io::Result<()>
    requires script_len_bound { length script.now ≤ 65536 }
    requires places_value { take (length (places_of (parts script.now))) places.now ≡ places_of (parts script.now) }
    requires count_value { count ≡ length (parts script.now) }
    ensures { OnOk result (Appends (W.contents output.old) (W.contents output.new) (parts_printed script.now (parts script.now))) }
{
    for place in places.chunks_exact(8).take(count) {
        print_part(output, script, part_at(place))?;
    }
    Ok(())
}

#[tactic(auto, using(crate::proofs::Scripts::refused_printed, crate::proofs::Scripts::script_short, crate::proofs::Scripts::places_held, crate::proofs::Scripts::count_held, crate::proofs::Scripts::parts_printed_lem))]
fn print_cut<W: Write>(output: &mut W, script: &[u8], places: &mut [u8]) -> io::Result<()>
    requires { 524288 ≤ length places.old }
    ensures { OnOk result (Appends (W.contents output.old) (W.contents output.new) (cutting_printed script.now)) }
{
    let mut number = 0;
    let mut detail = 0;
    cut(script, places, &mut number, &mut detail);
    if number != 0 {
        return writeln!(output, "refused {number}");
    }
    print_parts(output, script, places, detail as usize)
}

// Of a longer script than a call accepts enough is read that it is refused as the whole is. The buffers and the call are each
// program's own: one function for all would take both, and be no plainer.
fn answer<R: Read, W: Write>(input: &mut R, output: &mut W) -> io::Result<()>
    ensures { OnOk result (IfSome (R.remaining input.old) (λ script. Appends (W.contents output.old) (W.contents output.new) (cutting_printed script))) }
{
    let mut space = zeroed::<TEXT_SPACE>();
    // The place of a part at each byte of the longest script: the places are never full.
    let mut places = zeroed::<524288>();
    let n = read_text(input, &mut space)?;
    print_cut(output, &space[..n], &mut places)
}

// A program needs a `main` of its own. Ends with the error where standard input or standard output fails.
fn main(rt: HostRuntime) -> io::Result<()> {
    answer(&mut rt.stdin(), &mut rt.stdout())
}
