// `tokenize`: the tokens of a statement, into a table that the caller lends.
ghost use Rattle.std.specs.Prelude.{◌≡◌, length};
ghost use Rattle.tokenizer.specs.Answers.{tokenize_answer, tokenize_records};

use crate::Totals;
use crate::table::write_table;
use calls::{Refusal, check};

// The boundary for C has this as it has `tighten`: a table of records, and an answer of two numbers.
#[tactic(auto, unfolding(crate::specs::Answers::tokenize_answer, crate::specs::Answers::tokenize_records))]
pub fn tokenize(
    statement: &[u8],
    dialect: u64,
    joins: u64,
    named: u64,
    records: &mut [u8],
) -> Result<Totals, Refusal>
    ensures value { result ≡ tokenize_answer statement.now dialect joins named (length records.old) }
    ensures records_after { records.new ≡ tokenize_records statement.now dialect joins named records.old }
{
    let search = check(statement, dialect, joins, named)?;
    write_table(search, records)
}
