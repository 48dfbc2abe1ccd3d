// What the recognisers are made of.
ghost use Rattle.std.specs.Prelude.{◌≡◌, not, ◌&&◌, ◌+◌, ◌^◌, ◌<◌, length, drop};
ghost use Rattle.characters.specs.Ranges.{within};
ghost use Rattle.recognisers.specs.Taking.{taken, more, done, literal, caseless, capital, is_spelled, end_of_word, is_digit, count, at_least, contains, starts_with, starts_among};
ghost use Rattle.recognisers.specs.Pieces.{token_of};
ghost use Rattle.recognisers.specs.Inner.Behind.{Behind};
ghost use Rattle.recognisers.specs.Inner.FirstAmong.{FirstAmong};

use crate::{Piece, TokenKind};

// A loop: `contains` of the library, which looks at groups, compiles to more than the one bit test that a constant list is here.
#[inline(always)]
pub fn is_among(bytes: &[u8], b: u8) -> bool
    ensures { result ≡ contains bytes.now b }
{
    for e in bytes {
        if b == *e {
            return true;
        }
    }
    false
}

#[tactic(auto, unfolding(characters::specs::Ranges::within), using(std::proofs::lemmas::Bool::Decides::nat_tests))]
pub fn is_capital(b: u8) -> bool
    ensures { result ≡ within 65 90 b }
{
    b.is_ascii_uppercase()
}

// The byte at i is b.
#[inline(always)]
pub fn stands_at(rest: &[u8], i: usize, b: u8) -> bool
    ensures { result ≡ starts_with b (drop i rest.now) }
{
    rest.get(i) == Some(&b)
}

// What stands behind the word, which is in capitals and stands at the start in either case.
pub fn behind_caseless<'a>(rest: &'a [u8], word: &[u8]) -> Option<&'a [u8]>
    ensures { Behind (is_spelled capital word.now rest.now) (length word.now) rest.now result }
{
    let (front, behind) = rest.split_at_checked(word.len())?;
    let mut pairs = front.iter().zip(word);
    pairs
        .all(|(b, w)| b.to_ascii_uppercase() == *w)
        .then_some(behind)
}

// What stands behind one of the marks.
#[inline(always)]
pub fn behind_mark<'a>(rest: &'a [u8], marks: &[u8]) -> Option<&'a [u8]>
    ensures { Behind (starts_among marks.now rest.now) 1 rest.now result }
{
    let (first, behind) = rest.split_first()?;
    if is_among(marks, *first) {
        return Some(behind);
    }
    None
}

// This, `count_operators` and `WordAhead::of` are the library's `position` and the length: one function over a test would be no plainer.
pub fn count_digits(rest: &[u8]) -> usize
    ensures { result ≡ count is_digit rest.now }
{
    let end = rest.iter().position(|b| !b.is_ascii_digit());
    end.unwrap_or(rest.len())
}

// n bytes more. (A `?` in its place gives the loop over reserved phrases one way out more, which makes `tokenize` 40 % slower on
// them.)
pub fn n_more(n: usize, t: Option<usize>) -> Option<usize>
    requires { n + taken t < 2 ^ 64 }
    ensures { result ≡ more n t }
{
    t.map(|m| n + m)
}

pub fn at_least(least: usize, n: usize) -> Option<usize>
    ensures { result ≡ at_least least n }
{
    (least <= n).then_some(n)
}

#[tactic(auto, unfolding(crate::specs::Taking::end_of_word, characters::specs::Character::character))]
pub fn end_of_word(rest: &[u8]) -> Option<usize>
    ensures { result ≡ end_of_word rest.now }
{
    let c = characters::character_at(rest, 0);
    (!characters::is_word_character(c.code_point)).then_some(0)
}

// One of the marks stands at the start. (Whether, here; which, in `first_among`; and what is behind, in `behind_mark`: three answers to one
// question, and each caller takes the least.)
#[inline(always)]
pub fn starts_among(rest: &[u8], marks: &[u8]) -> bool
    ensures { result ≡ starts_among marks.now rest.now }
{
    match rest.first() {
        Some(b) => is_among(marks, *b),
        None => false,
    }
}

// The byte at the start, where it is one of the marks.
#[inline(always)]
pub fn first_among(rest: &[u8], marks: &[u8]) -> Option<u8>
    ensures { FirstAmong marks.now rest.now result }
{
    let first = *rest.first()?;
    if is_among(marks, first) {
        return Some(first);
    }
    None
}

// `b` stands at the start, and `next` does not behind it.
#[inline(always)]
pub fn is_lone(rest: &[u8], b: u8, next: u8) -> bool
    ensures { result ≡ (starts_with b rest.now && not (starts_with next (drop 1 rest.now))) }
{
    stands_at(rest, 0, b) && !stands_at(rest, 1, next)
}

// The word alone, as typed.
#[inline(always)]
pub fn exactly(rest: &[u8], word: &[u8]) -> Option<usize>
    ensures { result ≡ literal word.now done rest.now }
{
    rest.starts_with(word).then_some(word.len())
}

// The word in either case, and no word character behind it.
pub fn caseless_word(rest: &[u8], word: &[u8]) -> Option<usize>
    ensures { result ≡ caseless word.now end_of_word rest.now }
{
    let behind = behind_caseless(rest, word)?;
    Some(word.len() + end_of_word(behind)?)
}

pub fn token_of(kind: TokenKind, t: Option<usize>) -> Option<Piece>
    ensures { result ≡ token_of kind t }
{
    t.map(|n| Piece::of(kind, n))
}
