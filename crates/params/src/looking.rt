// `lookup`: what stands for one token, handed back as a part of the statement or of the sheet.
ghost use Rattle.std.specs.Prelude.{◌≡◌, IfOk};
ghost use Rattle.params.specs.Inner.Inside.{PartInside};
ghost use Rattle.params.specs.Inner.Lookups.{looked_up, length_of};
ghost use Rattle.params.specs.Answers.{nothing_found, found_for, found_at, lookup_part, lookup_bytes, lookup_start, lookup_counter, lookup_number, lookup_detail};

use crate::accepting::Filling;
use crate::getting::params_at;
use crate::parts::{part_length, part_of};
use crate::sheet::Sheet;
use crate::{Found, Part};
use calls::{Refusal, Search, numbers_of};
use tokenizer::{PlacedToken, Tokens};

// The empty start of the statement.
#[tactic(auto, unfolding(crate::specs::Answers::nothing_found))]
fn nothing_found(counter: u64) -> Found
    ensures { result ≡ nothing_found counter }
{
    Found {
        part: Part::Statement { start: 0, len: 0 },
        counter: counter,
    }
}

fn found_for(sheet: Sheet<'_>, counter: u64, token: PlacedToken<'_>) -> Found
    ensures { result ≡ found_for token.entry.statement.now sheet.entry.headed.bytes.now counter token.entry.token }
{
    let mut params = params_at(sheet, counter);
    let part = params.stands_for(token);
    params.params_past(token);
    Found {
        part: part,
        counter: params.index,
    }
}

fn find(filling: Filling<'_>, place: usize, counter: u64) -> Found
    ensures value { result ≡ found_at filling.entry.search.settings filling.entry.search.text.now filling.entry.sheet.headed.bytes.now place counter }
    ensures part_inside { PartInside filling.entry.search.text.now filling.entry.sheet.headed.bytes.now result.part }
{
    let Search { text, settings } = filling.search;
    match Tokens::new(text, settings).nth(place) {
        Some(token) => {
            let token = PlacedToken {
                statement: text,
                token,
            };
            found_for(filling.sheet, counter, token)
        }
        None => nothing_found(counter),
    }
}

// With the call's arguments as they come: they are a `Filling` once they are checked.
#[tactic(auto, unfolding(crate::specs::Inner::Lookups::looked_up))]
fn look_up(
    statement: &[u8],
    dialect: u64,
    joins: u64,
    named: u64,
    sheet: &[u8],
    place: usize,
    counter: u64,
) -> Result<Found, Refusal>
    ensures value { result ≡ looked_up statement.now dialect joins named sheet.now place counter }
    ensures part_inside { IfOk result (λ found. PartInside statement.now sheet.now found.part) }
{
    let filling = Filling::check(statement, dialect, joins, named, sheet)?;
    Ok(find(filling, place, counter))
}

fn length_of(answer: Result<Found, Refusal>) -> Result<u64, Refusal>
    ensures { result ≡ length_of answer }
{
    Ok(part_length(answer?.part) as u64)
}

// The part by its place, with all that a lookup tells. Counter, number and detail are lent by a rule of the
// project for what serves Rattle callers alone.
#[tactic(auto, using(crate::proofs::Lookups::found_told, crate::proofs::Lookups::detail_told, crate::proofs::Lookups::told_inside))]
pub fn lookup_part(
    statement: &[u8],
    dialect: u64,
    joins: u64,
    named: u64,
    sheet: &[u8],
    place: usize,
    counter: &mut u64,
    number: &mut u64,
    detail: &mut u64,
) -> Part
    ensures value { result ≡ lookup_part statement.now dialect joins named sheet.now place counter.old }
    ensures part_inside { PartInside statement.now sheet.now result }
    ensures counter_after { counter.new ≡ lookup_counter statement.now dialect joins named sheet.now place counter.old }
    ensures number_after { number.new ≡ lookup_number statement.now dialect joins named sheet.now }
    ensures detail_after { detail.new ≡ lookup_detail statement.now dialect joins named sheet.now place counter.old }
{
    let answer = look_up(statement, dialect, joins, named, sheet, place, *counter);
    (*number, *detail) = numbers_of(length_of(answer));
    let found = answer.unwrap_or(nothing_found(*counter));
    *counter = found.counter;
    found.part
}

// What is handed back lives as long as both the statement and the sheet do.
pub fn lookup<'r, 's: 'r, 'v: 'r>(
    statement: &'s [u8],
    dialect: u64,
    joins: u64,
    named: u64,
    sheet: &'v [u8],
    place: usize,
    counter: &mut u64,
    number: &mut u64,
    detail: &mut u64,
) -> &'r [u8]
    ensures result_value { result.now ≡ lookup_bytes statement.now dialect joins named sheet.now place counter.old }
    ensures ref_ptr_value { result.ref_ptr ≡ lookup_start statement.entry dialect joins named sheet.entry place counter.old }
    ensures counter_after { counter.new ≡ lookup_counter statement.now dialect joins named sheet.now place counter.old }
    ensures number_after { number.new ≡ lookup_number statement.now dialect joins named sheet.now }
    ensures detail_after { detail.new ≡ lookup_detail statement.now dialect joins named sheet.now place counter.old }
{
    let near: &'r [u8] = statement;
    let far: &'r [u8] = sheet;
    let part = lookup_part(
        near, dialect, joins, named, far, place, counter, number, detail,
    );
    part_of(near, far, part)
}
