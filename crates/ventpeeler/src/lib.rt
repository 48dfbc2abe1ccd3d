// The boundary for C: each call has the arguments that the header gives it.
#![tactic(auto)]

ghost use Rattle.std.specs.Prelude.{◌≡◌, length};
ghost use Rattle.tokenizer.specs.Answers.{tokenize_answer, tokenize_records};
ghost use Rattle.tight.specs.Answers.{tighten_answer, tighten_output};
ghost use Rattle.params.specs.Answers.{fill_answer, fill_output};
ghost use Rattle.ventpeeler.specs.Packed.{packed_table, packed_text};

use calls::{Refusal, numbers_of};
use params::fill;
use tight::tighten;
use tokenizer::tokenize;

#[tactic(auto, unfolding(crate::specs::Packed::packed, crate::specs::Packed::packed_text))]
fn pack(answer: Result<u64, Refusal>) -> u64
    ensures { result ≡ packed_text answer }
{
    let (number, detail) = numbers_of(answer);
    number * 72057594037927936 + detail.min(72057594037927935)
}

#[tactic(auto, using(crate::proofs::Packing::written_fits, crate::proofs::Packing::written_told, crate::proofs::Packing::refused_told))]
#[unsafe(no_mangle)]
pub extern "C" fn ventpeeler_tokenize(
    statement: &[u8],
    dialect: u64,
    joins: u64,
    named: u64,
    records: &mut [u8],
) -> u64
    ensures value { result ≡ packed_table (tokenize_answer statement.now dialect joins named (length records.old)) }
    ensures records_after { records.new ≡ tokenize_records statement.now dialect joins named records.old }
{
    match tokenize(statement, dialect, joins, named, records) {
        Ok(totals) => pack(Ok((totals.escaped * 4294967296 + totals.tokens) as u64)),
        Err(refusal) => pack(Err(refusal)),
    }
}

#[unsafe(no_mangle)]
pub extern "C" fn ventpeeler_tighten(
    statement: &[u8],
    dialect: u64,
    joins: u64,
    named: u64,
    output: &mut [u8],
) -> u64
    ensures value { result ≡ packed_text (tighten_answer statement.now dialect joins named (length output.old)) }
    ensures output_after { output.new ≡ tighten_output statement.now dialect joins named output.old }
{
    pack(tighten(statement, dialect, joins, named, output))
}

#[unsafe(no_mangle)]
pub extern "C" fn ventpeeler_fill(
    statement: &[u8],
    dialect: u64,
    joins: u64,
    named: u64,
    sheet: &[u8],
    output: &mut [u8],
) -> u64
    ensures value { result ≡ packed_text (fill_answer statement.now dialect joins named sheet.now (length output.old)) }
    ensures output_after { output.new ≡ fill_output statement.now dialect joins named sheet.now output.old }
{
    pack(fill(statement, dialect, joins, named, sheet, output))
}
