// The filled text of a whole statement: its length, and the text itself. A value that is next in turn costs one look at one
// entry; one that is named or numbered costs a look at each entry before it.
ghost use Rattle.std.specs.Prelude.{◌≡◌, ◌+◌, ◌≤◌, length};
ghost use Rattle.std.proofs.lemmas.List.Edits.{sets};
ghost use Rattle.calls.specs.Texts.{written_over};
ghost use Rattle.params.specs.Filled.{part_length};
ghost use Rattle.params.specs.Inner.Fillings.{text_of};
ghost use Rattle.params.specs.Inner.Noughts.{measured};
ghost use Rattle.params.specs.Inner.Placed.{part_for, bytes_to_put};

use crate::accepting::Filling;
use crate::getting::{Params, params_at};
use crate::keys::is_placeholder;
use crate::parts::{part_length, put_part};
use calls::{Refusal, Search, put_bytes};
use tokenizer::{PlacedToken, Tokens};

// The length of what stands for a token. Most tokens are no placeholders and need no look at the sheet.
#[inline(always)]
#[tactic(auto, unfolding(crate::specs::Filled::stands_for))]
fn length_for(params: &Params<'_>, token: PlacedToken<'_>) -> usize
    ensures { result ≡ part_length (part_for params.now token.entry) }
{
    if is_placeholder(token) {
        return part_length(params.stands_for(token));
    }
    token.token.len
}

// What stands for a token, put into the output; the place behind it.
#[tactic(auto, using(crate::proofs::PartBytes::for_inside, crate::proofs::PartBytes::for_room))]
fn put_part_for(params: &Params<'_>, token: PlacedToken<'_>, output: &mut [u8], at: usize) -> usize
    requires { at + part_length (part_for params.now token) ≤ length output.old }
    ensures value { result ≡ at + part_length (part_for params.now token.entry) }
    ensures output_after { output.new ≡ sets output.old at (bytes_to_put params.now token.entry) }
{
    let part = params.stands_for(token);
    put_part(token.statement, params.sheet.headed.bytes, part, output, at);
    at + part_length(part)
}

// The same, with no look at the sheet for most tokens.
#[inline(always)]
#[tactic(auto, unfolding(crate::specs::Filled::stands_for))]
fn put_for(params: &Params<'_>, token: PlacedToken<'_>, output: &mut [u8], at: usize) -> usize
    requires { at + part_length (part_for params.now token) ≤ length output.old }
    ensures value { result ≡ at + part_length (part_for params.now token.entry) }
    ensures output_after { output.new ≡ sets output.old at (bytes_to_put params.now token.entry) }
{
    if is_placeholder(token) {
        return put_part_for(params, token, output, at);
    }
    put_bytes(token.text(), output, at);
    at + token.token.len
}

// The length, or the first place nought as the refusal. The walk that measures and the one that writes are two, here as in tight: what
// each does with a token is most of it.
pub fn measure(filling: Filling<'_>) -> Result<usize, Refusal>
    ensures { result ≡ measured filling.entry }
{
    let Search { text, settings } = filling.search;
    let mut count = 0;
    let mut params = params_at(filling.sheet, 0);
    for token in Tokens::new(text, settings) {
        let placed = PlacedToken {
            statement: text,
            token,
        };
        if params.stops(placed) {
            return Err(Refusal::PlaceNought(token.start as u64));
        }
        count += length_for(&params, placed);
        params.params_past(placed);
    }
    Ok(count)
}

// How many bytes were written.
pub fn write_filled(filling: Filling<'_>, output: &mut [u8]) -> usize
    requires { length (text_of filling) ≤ length output.old }
    ensures value { result ≡ length (text_of filling.entry) }
    ensures output_after { output.new ≡ written_over (text_of filling.entry) output.old }
{
    let Search { text, settings } = filling.search;
    let mut at = 0;
    let mut params = params_at(filling.sheet, 0);
    for token in Tokens::new(text, settings) {
        let placed = PlacedToken {
            statement: text,
            token,
        };
        at = put_for(&params, placed, output, at);
        params.params_past(placed);
    }
    at
}
