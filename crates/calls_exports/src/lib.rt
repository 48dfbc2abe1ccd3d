// Twins of the calls that serve Rattle callers alone, for tests that are written in Rust: they link libcalls_exports.a. It is
// no part of the product's boundary, which has none of these calls. Numbers are lent, since a function for C
// gives one value back.
#![tactic(auto)]

ghost use Rattle.std.specs.Prelude.{◌≡◌, length};
ghost use Rattle.calls.specs.Texts.{text_after};
ghost use Rattle.params.specs.Answers.{lookup_part, lookup_bytes, lookup_counter, lookup_number, lookup_detail};
ghost use Rattle.script.specs.Answers.{cut_checked, cut_number, cut_detail, cut_places};
ghost use Rattle.calls_exports.specs.Places.{source_of, start_of};

use calls::put_bytes;
use params::{Part, lookup, lookup_part};
use script::cut;

// The part's bytes are copied to the start of `bytes`, where it has the room.
#[unsafe(no_mangle)]
#[tactic(auto, unfolding(calls::specs::Texts::text_after), using(crate::proofs::LookupTwins::copied))]
pub extern "C" fn calls_lookup<'a>(
    statement: &'a [u8],
    dialect: u64,
    joins: u64,
    named: u64,
    sheet: &'a [u8],
    place: usize,
    counter: &mut u64,
    number: &mut u64,
    detail: &mut u64,
    bytes: &mut [u8],
)
    ensures counter_after { counter.new ≡ lookup_counter statement.now dialect joins named sheet.now place counter.old }
    ensures number_after { number.new ≡ lookup_number statement.now dialect joins named sheet.now }
    ensures detail_after { detail.new ≡ lookup_detail statement.now dialect joins named sheet.now place counter.old }
    ensures bytes_after { bytes.new ≡ text_after (lookup_bytes statement.now dialect joins named sheet.now place counter.old) bytes.old }
{
    let part = lookup(
        statement, dialect, joins, named, sheet, place, counter, number, detail,
    );
    if part.len() <= bytes.len() {
        put_bytes(part, bytes, 0);
    }
}

// The same part by its source, 0 the statement and 1 the sheet, and its start there.
#[unsafe(no_mangle)]
pub extern "C" fn calls_lookup_place(
    statement: &[u8],
    dialect: u64,
    joins: u64,
    named: u64,
    sheet: &[u8],
    place: usize,
    counter: &mut u64,
    number: &mut u64,
    detail: &mut u64,
    source: &mut u64,
    start: &mut u64,
)
    ensures counter_after { counter.new ≡ lookup_counter statement.now dialect joins named sheet.now place counter.old }
    ensures number_after { number.new ≡ lookup_number statement.now dialect joins named sheet.now }
    ensures detail_after { detail.new ≡ lookup_detail statement.now dialect joins named sheet.now place counter.old }
    ensures source_after { source.new ≡ source_of (lookup_part statement.now dialect joins named sheet.now place counter.old) }
    ensures start_after { start.new ≡ start_of (lookup_part statement.now dialect joins named sheet.now place counter.old) }
{
    let part = lookup_part(
        statement, dialect, joins, named, sheet, place, counter, number, detail,
    );
    (*source, *start) = match part {
        Part::Statement { start: at, .. } => (0, at as u64),
        Part::Sheet { start: at, .. } => (1, at as u64),
    };
}

#[unsafe(no_mangle)]
pub extern "C" fn calls_cut(script: &[u8], places: &mut [u8], number: &mut u64, detail: &mut u64)
    ensures number_after { number.new ≡ cut_number (cut_checked script.now (length places.old)) }
    ensures detail_after { detail.new ≡ cut_detail script.now (cut_checked script.now (length places.old)) }
    ensures places_after { places.new ≡ cut_places script.now places.old (cut_checked script.now (length places.old)) }
{
    cut(script, places, number, detail);
}
