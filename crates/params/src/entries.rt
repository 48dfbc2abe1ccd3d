// The entries of a sheet, one behind the other, and the values that they hold.
ghost use Rattle.std.specs.Prelude.{◌≡◌, ◌≤◌, ◌<◌};
ghost use Rattle.params.specs.Sheet.{count_of, place_of};

use crate::keys::has_text;
use crate::sheet::Sheet;
use crate::{Part, Place};
use tokenizer::PlacedToken;

// An entry: its name, and where its value stands, since a lookup tells by its answer's place.
#[derive(Clone, Copy)]
pub struct Entry<'a> {
    pub name: &'a [u8],
    pub value: Part,
}

#[derive(Clone, Copy)]
pub struct Entries<'a> {
    pub sheet: Sheet<'a>,
    pub place: Place,
    pub ghost standing: { place ≡ place_of sheet.headed.bytes.now place.entry },
    pub ghost within: { place.entry ≤ count_of sheet.headed.bytes.now },
}

impl<'a> Iterator for Entries<'a> {
    ghost use Rattle.std.specs.Iterator.{YieldsFirstBy, item_count};
    ghost use Rattle.params.specs.Inner.Entries.{seen, entries_left};

    type Item = Entry<'a>;

    ghost next_gives = { YieldsFirstBy seen entries_left };

    ghost remaining = { item_count entries_left };

    #[tactic(auto, using(crate::proofs::EntriesInside::at_body, crate::proofs::EntriesInside::at_lengths, crate::proofs::EntryLists::none_left, crate::proofs::EntryLists::some_left, crate::proofs::EntryLists::some_less))]
    fn next(&mut self) -> Option<Entry<'a>> {
        let place = self.place;
        if self.sheet.count() <= place.entry {
            return None;
        }
        self.place = self.sheet.headed.place_past(place);
        Some(self.sheet.entry(place))
    }
}

impl<'a> Sheet<'a> {
    ghost use Rattle.std.specs.Prelude.{drop};
    ghost use Rattle.params.specs.Get.{by_name};
    ghost use Rattle.params.specs.Inner.Entries.{entry, entries, seen, entries_left, numbered};

    // The entry at its place.
    #[tactic(auto, using(crate::proofs::EntriesInside::at_lengths, crate::proofs::EntriesInside::at_name, crate::proofs::EntriesInside::name_fits, crate::proofs::EntryLists::entry_here))]
    fn entry(self, place: Place) -> Entry<'a>
        requires standing { place ≡ place_of self.headed.bytes.now place.entry }
        requires within { place.entry < count_of self.headed.bytes.now }
        ensures { seen result ≡ entry self.entry.headed.bytes.now place.entry }
    {
        let lengths = self.headed.lengths_at(place);
        let start = place.body;
        let middle = start + lengths.name;
        Entry {
            name: &self.headed.bytes[start..middle],
            value: Part::Sheet {
                start: middle,
                len: lengths.value,
            },
        }
    }

    // The place of an entry by its number: one look at each entry before it.
    #[tactic(auto, using(crate::proofs::EntriesInside::at_entry, crate::proofs::EntriesInside::at_body, crate::proofs::EntriesInside::at_lengths, crate::proofs::EntriesInside::next_stands))]
    fn place_of(self, n: usize) -> Place
        requires { n ≤ count_of self.headed.bytes.now }
        ensures { result ≡ place_of self.entry.headed.bytes.now n }
    {
        let headed = self.headed;
        let mut place = headed.first_place();
        for _ in 0..n {
            place = headed.place_past(place);
        }
        place
    }

    #[tactic(auto, using(crate::proofs::EntriesInside::stands, crate::proofs::EntriesInside::entry_of, crate::proofs::EntryLists::left_all))]
    pub fn entries(self) -> Entries<'a>
        ensures { entries_left result ≡ entries self.entry.headed.bytes.now }
    {
        Entries {
            sheet: self,
            place: self.headed.first_place(),
        }
    }

    // The entries from a number on.
    #[tactic(auto, using(crate::proofs::EntriesInside::stands, crate::proofs::EntriesInside::entry_of))]
    pub fn entries_from(self, n: u64) -> Entries<'a>
        ensures { entries_left result ≡ drop n (entries self.entry.headed.bytes.now) }
    {
        let number = self.count().min(n as usize);
        Entries {
            sheet: self,
            place: self.place_of(number),
        }
    }

    // The value of an entry by its number.
    #[tactic(auto, using(crate::proofs::EntriesInside::stands, crate::proofs::EntriesInside::entry_of, crate::proofs::EntryLists::no_number))]
    pub fn numbered(self, n: u64) -> Option<Part>
        ensures { result ≡ numbered self.entry.headed.bytes.now n }
    {
        let number = n as usize;
        if self.count() <= number {
            return None;
        }
        Some(self.entry(self.place_of(number)).value)
    }

    // The value of the first entry with the key's text as its name: one look at each entry before it and at its name.
    pub fn named(self, token: PlacedToken<'_>) -> Option<Part>
        ensures { result ≡ numbered self.entry.headed.bytes.now (by_name token.entry.statement.now self.entry.headed.bytes.now token.entry.token.key) }
    {
        if token.token.key.is_none() {
            return None;
        }
        let entry = self.entries().find(|entry| has_text(token, entry.name))?;
        Some(entry.value)
    }
}
