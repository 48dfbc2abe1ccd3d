// How many quotes of a string are escaped.
ghost use Rattle.std.specs.Prelude.{◌≡◌, false};
ghost use Rattle.recognisers.specs.Strings.{pairs_passed, pairs_behind, pairs_in, string_pairs};
ghost use Rattle.recognisers.specs.Placeholder.{string_named_pairs};

use crate::scan::{stands_at, starts_among};
use crate::strings::escaped_at;

// The pairs that `take_till_escaping` passes, by the same turns (a `while`: an escape and the byte behind it are passed together).
fn pairs_passed(rest: &[u8], desired: u8, escapes: &[u8]) -> usize
    ensures { result ≡ pairs_passed desired escapes.now false rest.now }
{
    let mut pairs = 0;
    let mut i = 0;
    while i < rest.len() {
        if escaped_at(rest, i, desired, escapes) {
            pairs += 1;
            i += 2;
        } else {
            if rest[i] == desired {
                return pairs;
            }
            i += 1;
        }
    }
    pairs
}

// Those behind an opener of n bytes.
fn pairs_behind(value: &[u8], n: usize, desired: u8, escapes: &[u8]) -> usize
    ensures { result ≡ pairs_behind n desired escapes.now value.now }
{
    if value.len() < n {
        return 0;
    }
    pairs_passed(&value[n..], desired, escapes)
}

// Those of a string, by its opener.
fn pairs_in(value: &[u8], single: &[u8], double: &[u8], letters: &[u8]) -> usize
    ensures { result ≡ pairs_in single.now double.now letters.now value.now }
{
    if stands_at(value, 0, b'`') {
        return pairs_behind(value, 1, b'`', b"`");
    }
    if stands_at(value, 0, b'[') {
        return pairs_behind(value, 1, b']', b"]");
    }
    if stands_at(value, 0, b'"') {
        return pairs_behind(value, 1, b'"', double);
    }
    if stands_at(value, 0, b'\'') {
        return pairs_behind(value, 1, b'\'', single);
    }
    if starts_among(value, letters) {
        return pairs_behind(value, 2, b'\'', single);
    }
    0
}

pub fn string_pairs(value: &[u8]) -> usize
    ensures { result ≡ string_pairs value.now }
{
    pairs_in(value, b"'\\", b"\"\\", b"NE")
}

// Those of a string placeholder, behind its mark.
pub fn string_named_pairs(value: &[u8]) -> usize
    ensures { result ≡ string_named_pairs value.now }
{
    if value.len() == 0 {
        return 0;
    }
    pairs_in(&value[1..], b"\\", b"\\", b"N")
}
