// A phrase at the start of a rest, and the first of the phrases.
ghost use Rattle.std.specs.Prelude.{◌≡◌, ℕ, List, [], ◌∷◌, true, false, None, ◌≤◌, eqb, length, drop, get_or};
ghost use Rattle.recognisers.specs.Taking.{done, capital};
ghost use Rattle.recognisers.specs.Inner.WordLength.{word_length};
ghost use Rattle.reserved.specs.declared.entries.Group.{Group};
ghost use Rattle.reserved.specs.Phrases.{walk};
ghost use Rattle.reserved.specs.Inner.Entries.{listed, entries, entries_of, entries_long, if_exists, ending, entry_end, find_entry};

use crate::entries::{Entry, Group};
use crate::gaps::Gaps;
use crate::phrases::lengths_of;
use recognisers::{WordAhead, behind_caseless, end_of_word, n_more};

// A letter of a phrase at the start of a rest, in either case.
#[inline(always)]
#[tactic(auto, using(crate::proofs::PhraseWalk::letter_none, crate::proofs::PhraseWalk::letter_taken, crate::proofs::PhraseWalk::letter_other))]
fn letter_step(rest: &[u8], w: u8) -> Option<usize>
    requires { eqb w 32 ≡ false }
    ensures { result ≡ walk (w ∷ []) done rest.now }
{
    if rest.first()?.to_ascii_uppercase() == w {
        Some(1)
    } else {
        None
    }
}

// The second byte in capitals; 0, which is no letter, where there is none.
#[inline(always)]
fn second_capital(rest: &[u8]) -> u8
    ensures { result ≡ capital (get_or rest.now 1 0) }
{
    match rest.get(1) {
        Some(b) => b.to_ascii_uppercase(),
        None => 0,
    }
}

// Words that begin with two letters, of which the second is another. It tells most entries that do not stand there.
#[inline(always)]
fn second_differs(second: u8, words: &[u8]) -> bool
    ensures { (group : Group) (s : List ℕ) → second ≡ capital (get_or s 1 0) → result ≡ true → None ≡ entry_end group words.now s }
{
    if words.len() < 2 || words[0] == b' ' || words[1] == b' ' {
        return false;
    }
    words[1] != second
}

// Places lie inside the rest: from any place, by `get`, `tokenize` takes 4 % longer on searches and 8 % on reserved words.
impl Gaps<'_> {
    // A byte of a phrase at a place: any whitespace for a space, else a letter.
    #[inline(always)]
    #[tactic(auto, using(crate::proofs::PhraseWalk::gap_none, crate::proofs::PhraseWalk::gap_taken))]
    fn byte_step(&mut self, at: usize, w: u8) -> Option<usize>
        requires { at ≤ length self.old.rest.now }
        ensures value { result ≡ walk (w ∷ []) done (drop at self.old.rest.now) }
        ensures rest { self.new.rest ≡ self.old.rest }
    {
        if w != b' ' {
            return letter_step(&self.rest[at..], w);
        }
        match self.length_at(at) {
            0 => None,
            n => Some(n),
        }
    }

    // How far words that begin at a place go on behind it.
    #[inline(always)]
    #[tactic(auto, using(crate::proofs::PhraseWalk::walk_fails, crate::proofs::PhraseWalk::walk_fits, crate::proofs::PhraseWalk::walk_end))]
    fn words_end(&mut self, from: usize, words: &[u8]) -> Option<usize>
        requires { from ≤ length self.old.rest.now }
        ensures value { result ≡ walk words.now done (drop from self.old.rest.now) }
        ensures rest { self.new.rest ≡ self.old.rest }
    {
        let mut n = 0;
        for w in words {
            n += self.byte_step(from + n, *w)?;
        }
        Some(n)
    }

    // `opt(" IF EXISTS")` and the end of the word, from a place on.
    #[tactic(auto, using(crate::proofs::PhraseWalk::exists_fits, crate::proofs::PhraseWalk::exists_more, crate::proofs::PhraseWalk::exists_no))]
    fn if_exists(&mut self, from: usize) -> Option<usize>
        requires { from ≤ length self.old.rest.now }
        ensures value { result ≡ if_exists (drop from self.old.rest.now) }
        ensures rest { self.new.rest ≡ self.old.rest }
    {
        let rest = self.rest;
        match self.words_end(from, b" IF EXISTS") {
            Some(n) => n_more(n, end_of_word(&rest[from + n..])),
            None => end_of_word(&rest[from..]),
        }
    }

    // What stands behind the words of an entry.
    #[inline(always)]
    fn ending(&mut self, group: Group, from: usize) -> Option<usize>
        requires { from ≤ length self.old.rest.now }
        ensures value { result ≡ ending group (drop from self.old.rest.now) }
        ensures rest { self.new.rest ≡ self.old.rest }
    {
        if group == Group::Dropped {
            return self.if_exists(from);
        }
        end_of_word(&self.rest[from..])
    }

    // An entry's first word is the word at the start, which has n bytes, or the entry does not stand here.
    #[inline(always)]
    #[tactic(auto, using(crate::proofs::FirstWord::entry_short, crate::proofs::FirstWord::entry_other, crate::proofs::FirstWord::first_inside, crate::proofs::FirstWord::words_in, crate::proofs::FirstWord::entry_no, crate::proofs::FirstWord::entry_more, crate::proofs::FirstWord::entry_fits))]
    fn entry_end(&mut self, group: Group, n: usize, words: &[u8]) -> Option<usize>
        requires { n ≡ word_length self.old.rest.now }
        ensures value { result ≡ entry_end group words.now self.old.rest.now }
        ensures rest { self.new.rest ≡ self.old.rest }
    {
        let (first, more) = words.split_at_checked(n)?;
        behind_caseless(self.rest, first)?;
        let end = n + self.words_end(n, more)?;
        n_more(end, self.ending(group, end))
    }
}

// The first of the entries that stands at the start of the rest: its group and how many bytes it takes.
#[tactic(auto, using(crate::proofs::FirstEntry::found_here, crate::proofs::FirstEntry::found_later, crate::proofs::FirstEntry::found_nowhere))]
fn find_in(entries: &[Entry], word: WordAhead<'_>) -> Option<(Group, usize)>
    ensures { result ≡ find_entry (listed entries.now) word.entry.rest.now }
{
    let mut gaps = Gaps::none(word.rest);
    let second = second_capital(word.rest);
    for entry in entries {
        let Entry(group, words) = *entry;
        if second_differs(second, words.as_bytes()) {
            continue;
        }
        if let Some(len) = gaps.entry_end(group, word.len, words.as_bytes()) {
            return Some((group, len));
        }
    }
    None
}

// The entries that begin with a letter, in a word of this length.
#[inline(always)]
#[tactic(auto, unfolding(crate::specs::Inner::Entries::listed), using(crate::proofs::Lengths::at_place, crate::proofs::Lengths::past_lengths))]
fn entries_of(letter: u8, n: usize) -> &'static [Entry]
    ensures { listed result.now ≡ entries_long n (entries_of letter entries) }
{
    match lengths_of(letter).get(n) {
        Some(entries) => *entries,
        None => &[],
    }
}

// The first phrase that stands at the start of the rest. Three in ten words of a search have a letter and a length that no phrase has.
#[inline(always)]
#[tactic(auto, using(crate::proofs::FirstEntry::no_text, crate::proofs::OtherLengths::first_entry, crate::proofs::OtherLengths::no_entry, recognisers::proofs::LibraryWords::upper))]
pub fn find_phrase(word: WordAhead<'_>) -> Option<(Group, usize)>
    ensures { result ≡ find_entry entries word.entry.rest.now }
{
    let letter = word.rest.first()?.to_ascii_uppercase();
    let entries = entries_of(letter, word.len);
    if entries.is_empty() {
        return None;
    }
    find_in(entries, word)
}
