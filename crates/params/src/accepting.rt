// What `fill` and `lookup` both take: a search and its sheet, neither of which is refused.
use crate::sheet::Sheet;
use calls::{Refusal, Search, check};

#[derive(Clone, Copy)]
pub struct Filling<'a> {
    pub search: Search<'a>,
    pub sheet: Sheet<'a>,
}

impl<'a> Filling<'a> {
    ghost use Rattle.std.specs.Prelude.{◌≡◌, IfOk};
    ghost use Rattle.params.specs.Answers.{checked_with};
    ghost use Rattle.params.specs.Inner.Fillings.{settings_told};

    // What both refuse: setting, overlong, not UTF-8, then the sheet.
    #[tactic(auto, unfolding(crate::specs::Answers::checked_with))]
    pub fn check(
        statement: &'a [u8],
        dialect: u64,
        joins: u64,
        named: u64,
        sheet: &'a [u8],
    ) -> Result<Self, Refusal>
        ensures value { settings_told result ≡ checked_with statement.now dialect joins named sheet.now }
        ensures text_same { IfOk result (λ filling. filling.search.text ≡ statement.entry) }
        ensures sheet_same { IfOk result (λ filling. filling.sheet.headed.bytes ≡ sheet.entry) }
    {
        let search = check(statement, dialect, joins, named)?;
        let sheet = Sheet::read(sheet).ok_or(Refusal::Sheet)?;
        Ok(Filling { search, sheet })
    }
}
