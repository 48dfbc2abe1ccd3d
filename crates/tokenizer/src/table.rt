// The table that a statement's tokens are written to.
ghost use Rattle.std.specs.Prelude.{◌≡◌, ◌*◌, ◌≤◌, length};
ghost use Rattle.tokenizer.specs.Tokens.{tokens};
ghost use Rattle.tokenizer.specs.Records.{record_bytes, written};
ghost use Rattle.tokenizer.specs.EscapedQuotes.{totals};
ghost use Rattle.tokenizer.specs.Answers.{table_answer, table_after};

use crate::levels::level_past;
use crate::records::{RECORD_BYTES, put_record};
use crate::{Tokens, Totals};
use calls::{Refusal, Search, Settings};

#[tactic(auto, using(crate::proofs::OneStep::left_fits))]
pub fn count_tokens(statement: &[u8], settings: Settings) -> usize
    ensures { result ≡ length (tokens settings statement.now) }
{
    Tokens::new(statement, settings).count()
}

// The place in the table is counted along, since it is what tells how many records there are.
fn write_tokens(search: Search<'_>, table: &mut [u8]) -> Totals
    requires { length (tokens search.settings search.text.now) * record_bytes ≤ length table.old }
    ensures value { result ≡ totals (tokens search.entry.settings search.entry.text.now) }
    ensures table_after { table.new ≡ written (tokens search.entry.settings search.entry.text.now) table.old }
{
    let mut at = 0;
    let mut escaped = 0;
    let mut level = 0;
    for token in Tokens::new(search.text, search.settings) {
        put_record(table, at, level, token);
        at += RECORD_BYTES;
        escaped += token.escaped;
        level = level_past(level, token.kind);
    }
    Totals {
        tokens: at / RECORD_BYTES,
        escaped,
    }
}

// Counts first: where the table is full, nothing may be written. (`cut` in script has the same two steps over places: its refusal and
// its answer are others, and one function for both would take them all.)
#[tactic(auto, unfolding(crate::specs::Answers::table_answer, crate::specs::Answers::table_after))]
fn write_counted(search: Search<'_>, table: &mut [u8]) -> Result<Totals, Refusal>
    ensures value { result ≡ table_answer search.entry.settings search.entry.text.now (length table.old) }
    ensures table_after { table.new ≡ table_after search.entry.settings search.entry.text.now table.old }
{
    let count = count_tokens(search.text, search.settings);
    if table.len() / RECORD_BYTES < count {
        return Err(Refusal::TableFull(count as u64));
    }
    Ok(write_tokens(search, table))
}

// With a record for each byte of the statement no table is full, since every token has a byte: one pass is enough.
#[tactic(auto, unfolding(crate::specs::Answers::table_answer, crate::specs::Answers::table_after), using(crate::proofs::EndToEnd::tokens_short))]
pub fn write_table(search: Search<'_>, table: &mut [u8]) -> Result<Totals, Refusal>
    ensures value { result ≡ table_answer search.entry.settings search.entry.text.now (length table.old) }
    ensures table_after { table.new ≡ table_after search.entry.settings search.entry.text.now table.old }
{
    if table.len() / RECORD_BYTES < search.text.len() {
        return write_counted(search, table);
    }
    Ok(write_tokens(search, table))
}
