// The tight text of a whole statement: its length, and the text itself.
ghost use Rattle.std.specs.Prelude.{◌≡◌, ◌≤◌, length};
ghost use Rattle.calls.specs.Texts.{written_over};
ghost use Rattle.tight.specs.Inner.Searches.{text_of};

use crate::adding::{added_length, put_added, put_gap};
use crate::gaps::{before_first, gap_at_end, gap_length, spacing_past};
use calls::Search;
use tokenizer::{PlacedToken, Tokens};

pub fn tight_length(search: Search<'_>) -> usize
    ensures { result ≡ length (text_of search.entry) }
{
    let mut count = 0;
    let mut spacing = before_first();
    for token in Tokens::new(search.text, search.settings) {
        count += added_length(spacing.lead, token);
        let placed = PlacedToken {
            statement: search.text,
            token,
        };
        spacing = spacing_past(spacing, placed);
    }
    let last = gap_at_end(spacing.lead);
    count + gap_length(last)
}

// How many bytes were written.
pub fn write_tight(search: Search<'_>, output: &mut [u8]) -> usize
    requires { length (text_of search) ≤ length output.old }
    ensures value { result ≡ length (text_of search.entry) }
    ensures output_after { output.new ≡ written_over (text_of search.entry) output.old }
{
    let mut at = 0;
    let mut spacing = before_first();
    for token in Tokens::new(search.text, search.settings) {
        let placed = PlacedToken {
            statement: search.text,
            token,
        };
        at = put_added(spacing.lead, placed, output, at);
        spacing = spacing_past(spacing, placed);
    }
    put_gap(gap_at_end(spacing.lead), output, at)
}
