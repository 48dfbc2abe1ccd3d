// The refusals that all calls share: setting, overlong, not UTF-8.
ghost use Rattle.std.specs.Prelude.{◌≡◌, cond, leb, eqb, Some, None, IfOk};
ghost use Rattle.calls.specs.Settings.{is_setting, settings_of};
ghost use Rattle.calls.specs.Checks.{checked, settings_found};

use crate::{Refusal, Search, Settings};
use characters::first_ill_formed;
use recognisers::Dialect;

// 0 or 1.
fn flag_of(number: u64) -> Option<bool>
    ensures { result ≡ cond (leb number 1) (Some (eqb number 1)) None }
{
    (number <= 1).then_some(number == 1)
}

// A dialect's number is the calls' own: `TryFrom` would have to stand beside `Dialect`, which knows no numbers.
#[tactic(auto, unfolding(crate::specs::Settings::is_setting, crate::specs::Settings::dialect_of, crate::specs::Settings::settings_of))]
fn settings_of(dialect: u64, joins: u64, named: u64) -> Option<Settings>
    ensures { result ≡ cond (is_setting dialect joins named) (Some (settings_of dialect joins named)) None }
{
    let dialect = match dialect {
        0 => Dialect::Generic,
        1 => Dialect::PostgreSql,
        2 => Dialect::SQLServer,
        _ => return None,
    };
    Some(Settings {
        dialect,
        joins: flag_of(joins)?,
        named: flag_of(named)?,
    })
}

// The first that applies. Settings come as numbers by the C interface: a wrong one is the first refusal.
#[tactic(auto, unfolding(crate::specs::Checks::checked, crate::specs::Checks::checked_text))]
pub fn check(statement: &[u8], dialect: u64, joins: u64, named: u64) -> Result<Search<'_>, Refusal>
    ensures settings { settings_found result ≡ checked dialect joins named statement.now }
    ensures text { IfOk result (λ search. search.text ≡ statement.entry) }
{
    let settings = settings_of(dialect, joins, named).ok_or(Refusal::Setting)?;
    if 65536 < statement.len() {
        return Err(Refusal::Overlong(statement.len() as u64));
    }
    if let Some(place) = first_ill_formed(statement) {
        return Err(Refusal::NotUtf8(place as u64));
    }
    Ok(Search {
        text: statement,
        settings,
    })
}
