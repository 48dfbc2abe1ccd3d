// Puts every number from 0 to 0x10FFFF through each class function of `characters`, and prints each class's name and the
// ranges that it finds, their first and last code point in hexadecimal.
#![tactic(auto)]

use std::io;
use std::io::Write;

fn print_range<W: Write>(output: &mut W, first: u32, last: u32) -> io::Result<()> {
    writeln!(output, "{first:04x} {last:04x}")
}

fn sweep_class<W: Write, F: Fn(u32) -> bool>(
    output: &mut W,
    name: &str,
    contains: F,
) -> io::Result<()>
    requires { F.IsAlwaysCallable contains }
{
    writeln!(output, "{name}")?;
    let mut reached: Option<(u32, u32)> = None;
    for c in 0..0x110000u32 {
        if contains(c) {
            let first = reached.map_or(c, |(first, _)| first);
            reached = Some((first, c));
        } else if let Some((first, last)) = reached.take() {
            print_range(output, first, last)?;
        }
    }
    if let Some((first, last)) = reached {
        print_range(output, first, last)?;
    }
    Ok(())
}

fn main(rt: HostRuntime) -> io::Result<()> {
    let mut output = rt.stdout();
    sweep_class(
        &mut output,
        "is_whitespace",
        |c| characters::is_whitespace(c),
    )?;
    sweep_class(
        &mut output,
        "is_alphabetic",
        |c| characters::is_alphabetic(c),
    )?;
    sweep_class(&mut output, "is_numeric", |c| characters::is_numeric(c))?;
    sweep_class(&mut output, "is_mark", |c| characters::is_mark(c))?;
    sweep_class(
        &mut output,
        "is_punctuation_connector",
        |c| characters::is_punctuation_connector(c),
    )?;
    sweep_class(
        &mut output,
        "is_alphanumeric",
        |c| characters::is_alphanumeric(c),
    )?;
    sweep_class(
        &mut output,
        "is_word_character",
        |c| characters::is_word_character(c),
    )?;
    sweep_class(
        &mut output,
        "is_placeholder_name_character",
        |c| characters::is_placeholder_name_character(c),
    )?;
    Ok(())
}
