// Bytes that may be a value sheet: what they tell, and whether they are well formed.
ghost use Rattle.std.specs.Prelude.{◌≡◌, ◌+◌, ◌≤◌, ◌<◌, length};
ghost use Rattle.characters.specs.Utf8.{well_formed};

use crate::{Lengths, Place, QueryParams};
use calls::le_at;
use characters::first_ill_formed;

// Bytes as many as a sheet may have: kind and count stand inside.
#[derive(Clone, Copy)]
pub struct Headed<'a> {
    pub bytes: &'a [u8],
    pub ghost some: { 2 < length bytes.now },
    pub ghost short: { length bytes.now ≤ 65536 },
}

// Says what is asked, where `characters` tells a place.
#[tactic(auto, unfolding(characters::specs::Utf8::first_ill_formed, characters::specs::Utf8::well_formed))]
fn is_utf8(bytes: &[u8]) -> bool
    ensures { result ≡ well_formed bytes.now }
{
    bytes.is_empty() || first_ill_formed(bytes).is_none()
}

impl<'a> Headed<'a> {
    ghost use Rattle.std.specs.Prelude.{◌&&◌, IfSome, is_some};
    ghost use Rattle.params.specs.Sheet.{params_of, count_of, is_named, width, lengths_at, past, place_of, fills_exactly, bodies_are_utf8, is_kind_and_count, is_sheet_length, is_sheet};
    ghost use Rattle.params.specs.Inner.Bodies.{are_bodies};

    // By `if`: what the ghost fields say holds only behind the test.
    #[tactic(auto, unfolding(crate::specs::Sheet::is_sheet_length))]
    pub fn read(bytes: &'a [u8]) -> Option<Self>
        ensures value { is_some result ≡ is_sheet_length (length bytes.now) }
        ensures bytes_same { IfSome result (λ headed. headed.bytes ≡ bytes.entry) }
    {
        if 3 <= bytes.len() && bytes.len() <= 65536 {
            Some(Headed { bytes })
        } else {
            None
        }
    }

    #[tactic(auto, unfolding(crate::specs::Sheet::params_of, crate::specs::Sheet::kind_of))]
    pub fn params(self) -> QueryParams
        ensures { result ≡ params_of self.entry.bytes.now }
    {
        match self.bytes[0] {
            1 => QueryParams::Named,
            2 => QueryParams::Indexed,
            _ => QueryParams::None,
        }
    }

    #[tactic(auto, unfolding(crate::specs::Sheet::count_of))]
    pub fn count(self) -> usize
        ensures value { result ≡ count_of self.entry.bytes.now }
        ensures upper_bound { result < 65536 }
    {
        le_at::<2>(self.bytes, 1)
    }

    #[tactic(auto, unfolding(crate::specs::Sheet::is_named, crate::specs::Sheet::kind_of))]
    fn is_named(self) -> bool
        ensures { result ≡ is_named self.entry.bytes.now }
    {
        self.bytes[0] == 1
    }

    // How many bytes tell an entry's lengths.
    #[tactic(auto, unfolding(crate::specs::Sheet::width))]
    fn width(self) -> usize
        ensures value { result ≡ width self.entry.bytes.now }
        ensures upper_bound { result ≤ 4 }
    {
        if self.is_named() { 4 } else { 2 }
    }

    #[tactic(auto, unfolding(crate::specs::Sheet::lengths_at, crate::specs::Sheet::width))]
    pub fn lengths_at(self, place: Place) -> Lengths
        requires { place.lengths + width self.bytes.now ≤ length self.bytes.now }
        ensures value { result ≡ lengths_at self.entry.bytes.now place }
        ensures name_bound { result.name < 65536 }
        ensures value_bound { result.value < 65536 }
    {
        let at = place.lengths;
        if self.is_named() {
            return Lengths {
                name: le_at::<2>(self.bytes, at),
                value: le_at::<2>(self.bytes, at + 2),
            };
        }
        Lengths {
            name: 0,
            value: le_at::<2>(self.bytes, at),
        }
    }

    #[tactic(auto, unfolding(crate::specs::Sheet::place_of))]
    pub fn first_place(self) -> Place
        ensures { result ≡ place_of self.entry.bytes.now 0 }
    {
        Place {
            entry: 0,
            lengths: 3,
            body: 3 + self.count() * self.width(),
        }
    }

    #[tactic(auto, unfolding(crate::specs::Sheet::past))]
    pub fn place_past(self, place: Place) -> Place
        requires place_bound { place.entry ≤ 65536 }
        requires body_bound { place.body ≤ 65536 }
        requires in_bounds { place.lengths + width self.bytes.now ≤ length self.bytes.now }
        ensures { result ≡ past self.entry.bytes.now place }
    {
        let lengths = self.lengths_at(place);
        Place {
            entry: place.entry + 1,
            lengths: place.lengths + self.width(),
            body: place.body + lengths.name + lengths.value,
        }
    }

    // Two bodies of these lengths, one behind the other from a place on, lie inside and are UTF-8.
    fn are_bodies(self, start: usize, lengths: Lengths) -> bool
        requires start_bound { start ≤ 65536 }
        requires name_bound { lengths.name < 65536 }
        requires value_bound { lengths.value < 65536 }
        ensures { result ≡ are_bodies self.entry.bytes.now start lengths }
    {
        let middle = start + lengths.name;
        let end = middle + lengths.value;
        if self.bytes.len() < end {
            return false;
        }
        is_utf8(&self.bytes[start..middle]) && is_utf8(&self.bytes[middle..end])
    }

    // One look at each entry and at each body's bytes.
    #[tactic(auto, using(crate::proofs::SheetEntries::start_long, crate::proofs::SheetEntries::check_start, crate::proofs::SheetEntries::check_lengths, crate::proofs::SheetEntries::check_entry, crate::proofs::SheetEntries::check_fails, crate::proofs::SheetEntries::check_end))]
    fn bodies_fill(self) -> bool
        ensures { result ≡ (fills_exactly self.entry.bytes.now && bodies_are_utf8 self.entry.bytes.now (count_of self.entry.bytes.now)) }
    {
        let mut place = self.first_place();
        if self.bytes.len() < place.body {
            return false;
        }
        for _ in 0..self.count() {
            if !self.are_bodies(place.body, self.lengths_at(place)) {
                return false;
            }
            place = self.place_past(place);
        }
        place.body == self.bytes.len()
    }

    #[tactic(auto, unfolding(crate::specs::Sheet::is_kind_and_count, crate::specs::Sheet::kind_of))]
    fn is_kind_and_count(self) -> bool
        ensures { result ≡ is_kind_and_count self.entry.bytes.now }
    {
        match self.bytes[0] {
            0 => self.count() == 0,
            kind => kind <= 2,
        }
    }

    #[tactic(auto, unfolding(crate::specs::Sheet::is_sheet, crate::specs::Sheet::is_sheet_length))]
    pub fn is_sheet(self) -> bool
        ensures { result ≡ is_sheet self.entry.bytes.now }
    {
        self.is_kind_and_count() && self.bodies_fill()
    }
}
