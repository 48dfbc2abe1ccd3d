// `cut`: the parts of a script, into places that the caller lends.
ghost use Rattle.std.specs.Prelude.{◌≡◌, length};
ghost use Rattle.script.specs.Answers.{room_checked, cut_checked, cut_number, cut_detail, cut_places};
ghost use Rattle.script.specs.Inner.PartsAnswer.{parts_answer};

use crate::parts::{count_parts, write_parts};
use crate::places::PLACE_BYTES;
use calls::{Refusal, check, numbers_of};

// Counts first: where the places are full, none may be written.
#[tactic(auto, unfolding(crate::specs::Answers::room_checked), using(crate::proofs::PartWalk::places_length))]
fn cut_counted(script: &[u8], places: &mut [u8]) -> Result<u64, Refusal>
    ensures value { result ≡ parts_answer script.now (room_checked script.now (length places.old)) }
    ensures places_after { places.new ≡ cut_places script.now places.old (room_checked script.now (length places.old)) }
{
    let needed = count_parts(script);
    if places.len() / PLACE_BYTES < needed {
        return Err(Refusal::PartsFull(needed as u64));
    }
    Ok(write_parts(script, places) as u64)
}

// With a place for each byte of the script they are never full, since every part has a byte: one pass is enough.
#[tactic(auto, unfolding(crate::specs::Answers::room_checked), using(crate::proofs::PartWalk::places_length, crate::proofs::PartWalk::parts_short))]
fn cut_accepted(script: &[u8], places: &mut [u8]) -> Result<u64, Refusal>
    ensures value { result ≡ parts_answer script.now (room_checked script.now (length places.old)) }
    ensures places_after { places.new ≡ cut_places script.now places.old (room_checked script.now (length places.old)) }
{
    if places.len() / PLACE_BYTES < script.len() {
        return cut_counted(script, places);
    }
    Ok(write_parts(script, places) as u64)
}

// How many parts there are. The numbers are the cutter's settings: the check needs the numbers, and the walk the settings.
#[tactic(auto, unfolding(crate::specs::Answers::cut_checked))]
fn cut_parts(script: &[u8], places: &mut [u8]) -> Result<u64, Refusal>
    ensures value { result ≡ parts_answer script.now (cut_checked script.now (length places.old)) }
    ensures places_after { places.new ≡ cut_places script.now places.old (cut_checked script.now (length places.old)) }
{
    check(script, 0, 0, 0)?;
    cut_accepted(script, places)
}

// Number and detail are lent by a rule of the project, as `lookup` has them.
pub fn cut(script: &[u8], places: &mut [u8], number: &mut u64, detail: &mut u64)
    ensures number_after { number.new ≡ cut_number (cut_checked script.now (length places.old)) }
    ensures detail_after { detail.new ≡ cut_detail script.now (cut_checked script.now (length places.old)) }
    ensures places_after { places.new ≡ cut_places script.now places.old (cut_checked script.now (length places.old)) }
{
    (*number, *detail) = numbers_of(cut_parts(script, places));
}
