// The list of a statement's tokens, printed: a line with their count and a line for each with the eight fields of its record.
#![tactic(auto)]

ghost use Rattle.std.specs.Prelude.{OnOk, ◌++◌, codes};
ghost use Rattle.std.specs.Io.KnownBytes.{Appends};
ghost use Rattle.tokenizer.specs.Tokens.{tokens};
ghost use Rattle.tokenizer.specs.Records.{key_words};
ghost use Rattle.token_lines.specs.Printed.{next_field, key_fields, place_fields, token_line, lines_from, listed};

use calls::Settings;
use recognisers::Key;
use std::io;
use std::io::Write;
use tokenizer::{KeyWords, Token, Tokens};

// By functions: a `Display` would have to stand beside `Token`, in a crate that prints nothing.
fn print_place<W: Write>(output: &mut W, token: Token) -> io::Result<()>
    ensures { OnOk result (Appends (W.contents output.old) (W.contents output.new) (place_fields token)) }
{
    let kind = recognisers::kind_number(token.kind);
    let (start, len, alias) = (token.start, token.len, token.alias);
    write!(output, "{kind} {start} {len} {alias}")
}

fn print_key<W: Write>(output: &mut W, key: Option<Key>, level: usize) -> io::Result<()>
    ensures { OnOk result (Appends (W.contents output.old) (W.contents output.new) (key_fields (key_words key) ++ next_field level ++ codes "\n")) }
{
    let KeyWords { kind, a, b } = tokenizer::key_words(key);
    writeln!(output, " {kind} {a} {b} {level}")
}

#[tactic(auto, unfolding(crate::specs::Printed::token_line), using(crate::proofs::Lines::line_last))]
fn print_token<W: Write>(output: &mut W, token: Token, level: usize) -> io::Result<()>
    ensures { OnOk result (Appends (W.contents output.old) (W.contents output.new) (token_line level token)) }
{
    print_place(output, token)?;
    print_key(output, token.key, level)
}

fn print_tokens<W: Write>(output: &mut W, statement: &[u8], settings: Settings) -> io::Result<()>
    ensures { OnOk result (Appends (W.contents output.old) (W.contents output.new) (lines_from 0 (tokens settings statement.now))) }
{
    let mut level = 0;
    for token in Tokens::new(statement, settings) {
        print_token(output, token, level)?;
        level = tokenizer::level_past(level, token.kind);
    }
    Ok(())
}

pub fn print_list<W: Write>(output: &mut W, statement: &[u8], settings: Settings) -> io::Result<()>
    ensures { OnOk result (Appends (W.contents output.old) (W.contents output.new) (listed (tokens settings statement.now))) }
{
    let count = tokenizer::count_tokens(statement, settings);
    writeln!(output, "tokens {count}")?;
    print_tokens(output, statement, settings)
}
