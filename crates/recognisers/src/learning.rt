// What an opener that opens nothing tells of later ones: the look that failed is made once more, and not again for any rest that
// is no longer.
ghost use Rattle.std.specs.Prelude.{◌<◌, length};
ghost use Rattle.recognisers.specs.Comment.{till_line_ending};
ghost use Rattle.std.specs.Fn.{FnReturnsAt};
ghost use Rattle.recognisers.specs.Inner.Known.{Barren, Truthful, Looked};

use crate::Dialect;
use crate::comment::line_break;
use crate::hints::Hints;
use crate::placeholders::through_brace;
use crate::scan::{is_among, is_lone, stands_at};
use crate::strings::take_till_escaping;

// The length that is known to lack something, with a look at the rest from a place on.
fn known_behind<F: Fn(&[u8]) -> Option<usize>>(
    text: &[u8],
    from: usize,
    known: usize,
    look: F,
) -> usize
    requires { F.IsAlwaysCallable look }
    ensures { Looked (λ rest. FnReturnsAt F.Fn look rest None) text.now from known result }
{
    let Some(rest) = text.get(from..) else {
        return known;
    };
    if rest.len() <= known {
        return known;
    }
    match look(rest) {
        Some(_) => known,
        None => rest.len(),
    }
}

// How long the rest is where its line ends in a CR without LF; more than there is where it does not, which
// no rest is.
fn lone_return(rest: &[u8]) -> usize
    ensures { Barren till_line_ending rest.now result (length rest.now) }
{
    match line_break(rest) {
        Some(i) if is_lone(&rest[i..], b'\r', b'\n') => rest.len() - i,
        _ => rest.len() + 1,
    }
}

// The text and its hints are two parameters: where one struct holds both, the text's place is read from memory for each token, and
// searches take up to 4 % longer.
fn learn_line(text: &[u8], from: usize, hints: &mut Hints)
    requires { Truthful hints.old text.now }
    ensures { Truthful hints.new text.now }
{
    let Some(rest) = text.get(from..) else {
        return;
    };
    let n = rest.len();
    if hints.line_shortest <= n && n <= hints.line_longest {
        return;
    }
    hints.line_shortest = lone_return(rest);
    hints.line_longest = n;
}

// A square bracket opens in SQLServer alone.
fn learn_bracket(text: &[u8], from: usize, dialect: Dialect, hints: &mut Hints)
    requires { Truthful hints.old text.now }
    ensures { Truthful hints.new text.now }
{
    if dialect == Dialect::SQLServer {
        hints.square = known_behind(text, from, hints.square, |rest| {
            take_till_escaping(rest, b']', b"]")
        });
    }
}

// A mark before a square bracket.
fn learn_marked(text: &[u8], from: usize, dialect: Dialect, hints: &mut Hints)
    requires { Truthful hints.old text.now }
    ensures { Truthful hints.new text.now }
{
    if stands_at(text, from, b'[') {
        learn_bracket(text, from + 1, dialect, hints);
    }
}

// As a mark, but of another sign and another hint: one function for both would take both, and be no plainer.
fn learn_dashes(text: &[u8], from: usize, hints: &mut Hints)
    requires { Truthful hints.old text.now }
    ensures { Truthful hints.new text.now }
{
    if stands_at(text, from, b'-') {
        learn_line(text, from + 1, hints);
    }
}

// By the opener at a place where it is a token by itself: each byte has a look or a hint of its own.
fn learn_by(text: &[u8], at: usize, dialect: Dialect, hints: &mut Hints)
    requires at_in_bounds { at < length text.now }
    requires truthful { Truthful hints.old text.now }
    ensures { Truthful hints.new text.now }
{
    let from = at + 1;
    match text[at] {
        b'\'' => {
            hints.single = known_behind(text, from, hints.single, |rest| {
                take_till_escaping(rest, b'\'', b"'\\")
            })
        }
        b'"' => {
            hints.double = known_behind(text, from, hints.double, |rest| {
                take_till_escaping(rest, b'"', b"\"\\")
            })
        }
        b'{' => hints.brace = known_behind(text, from, hints.brace, through_brace),
        b'[' => learn_bracket(text, from, dialect, hints),
        b'#' => learn_line(text, from, hints),
        b'-' => learn_dashes(text, from, hints),
        b'@' | b':' => learn_marked(text, from, dialect, hints),
        _ => {}
    }
}

// Few operators are openers, and for the others nothing is called.
#[inline(always)]
pub fn learn_opener(text: &[u8], at: usize, dialect: Dialect, hints: &mut Hints)
    requires at_in_bounds { at < length text.now }
    requires truthful { Truthful hints.old text.now }
    ensures { Truthful hints.new text.now }
{
    if is_among(b"'\"{[#-@:", text[at]) {
        learn_by(text, at, dialect, hints);
    }
}
