// `Params::get`: what stands for a token, and the counter past it.
ghost use Rattle.std.specs.Prelude.{◌≡◌, drop};
ghost use Rattle.params.specs.Inner.Entries.{entries, entries_left};

use crate::entries::Entries;
use crate::keys::{has_name, index_told, is_nought, is_placeholder, own_text};
use crate::sheet::Sheet;
use crate::{Part, QueryParams};
use tokenizer::PlacedToken;

// The counter, and the entries from the one that is next in turn on.
#[derive(Clone, Copy)]
pub struct Params<'a> {
    pub sheet: Sheet<'a>,
    pub index: u64,
    pub ahead: Entries<'a>,
    pub ghost turn: { entries_left ahead ≡ drop index (entries sheet.headed.bytes.now) },
}

// The counter at a number.
pub fn params_at(sheet: Sheet<'_>, index: u64) -> Params<'_>
    ensures sheet_same { result.sheet ≡ sheet.entry }
    ensures index_same { result.index ≡ index }
{
    Params {
        sheet: sheet,
        index: index,
        ahead: sheet.entries_from(index),
    }
}

impl<'a> Params<'a> {
    ghost use Rattle.params.specs.declared.QueryParams.TheVariants.{Indexed};
    ghost use Rattle.params.specs.Sheet.{params_of};
    ghost use Rattle.params.specs.Get.{taken_from, counted_on};
    ghost use Rattle.params.specs.Filled.{index_after};
    ghost use Rattle.params.specs.Nought.{stops};
    ghost use Rattle.params.specs.Inner.Entries.{numbered, turn_from};
    ghost use Rattle.params.specs.Inner.Placed.{value_for, part_for};

    // The value that is next in turn.
    #[tactic(auto, using(crate::proofs::EntryLists::none_ahead, crate::proofs::EntryLists::first_ahead))]
    fn in_turn(&self) -> Option<Part>
        ensures { result ≡ numbered self.now.sheet.headed.bytes.now self.now.index }
    {
        let mut ahead = self.ahead;
        let entry = ahead.next()?;
        Some(entry.value)
    }

    // One value further: one look at one entry.
    #[tactic(auto, unfolding(crate::specs::Get::counted_on))]
    fn count_on(&mut self)
        ensures sheet_same { self.new.sheet ≡ self.old.sheet }
        ensures index_after { self.new.index ≡ counted_on self.old.index }
    {
        let _ = self.ahead.next();
        self.index = self.index.saturating_add(1);
    }

    #[tactic(auto, unfolding(crate::specs::Inner::Entries::numbered), using(crate::proofs::GetByCases::index_kept))]
    fn indexed(&self, token: PlacedToken<'_>) -> Option<Part>
        ensures { result ≡ numbered self.now.sheet.headed.bytes.now (taken_from Indexed token.entry.statement.now self.now.sheet.headed.bytes.now self.now.index token.entry.token.key) }
    {
        if has_name(token) {
            return None;
        }
        match index_told(token.token.key) {
            Some(n) => self.sheet.numbered(n),
            None => self.in_turn(),
        }
    }

    // The value that a placeholder takes.
    #[tactic(auto, unfolding(crate::specs::Get::taken, crate::specs::Inner::Entries::numbered))]
    fn value(&self, token: PlacedToken<'_>) -> Option<Part>
        ensures { result ≡ value_for self.now token.entry }
    {
        match self.sheet.params() {
            QueryParams::None => None,
            QueryParams::Named => self.sheet.named(token),
            QueryParams::Indexed => self.indexed(token),
        }
    }

    #[tactic(auto, unfolding(crate::specs::Filled::stands_for, crate::specs::Get::get, crate::specs::Get::value_or, crate::specs::Inner::Entries::numbered))]
    pub fn stands_for(&self, token: PlacedToken<'_>) -> Part
        ensures { result ≡ part_for self.now token.entry }
    {
        if is_placeholder(token) {
            return self.value(token).unwrap_or(own_text(token));
        }
        own_text(token)
    }

    // The key takes the value that is next in turn, or would: with an indexed sheet, where it has neither a name nor an index.
    fn takes_turn(&self, token: PlacedToken<'_>) -> bool
        ensures { result ≡ turn_from (params_of self.now.sheet.headed.bytes.now) token.entry.statement.now token.entry.token.key }
    {
        self.sheet.is_indexed() && !has_name(token) && index_told(token.token.key).is_none()
    }

    // A place nought, which stops the fill. Asked of the placeholder first: most tokens are none.
    #[inline(always)]
    pub fn stops(&self, token: PlacedToken<'_>) -> bool
        ensures { result ≡ stops (params_of self.now.sheet.headed.bytes.now) token.entry.token }
    {
        is_placeholder(token) && is_nought(token.token.key) && self.sheet.is_indexed()
    }

    #[inline(always)]
    #[tactic(auto, unfolding(crate::specs::Filled::index_after, crate::specs::Get::index_past))]
    pub fn params_past(&mut self, token: PlacedToken<'_>)
        ensures sheet_same { self.new.sheet ≡ self.old.sheet }
        ensures index_after { self.new.index ≡ index_after token.entry.statement.now self.old.sheet.headed.bytes.now self.old.index token.entry.token }
    {
        if is_placeholder(token) && self.takes_turn(token) {
            self.count_on();
        }
    }
}
