// The value sheet.
ghost use Rattle.std.specs.Prelude.{◌≡◌, true};
ghost use Rattle.params.specs.Sheet.{is_sheet};

use crate::QueryParams;
use crate::headed::Headed;

// A value sheet that is well formed.
#[derive(Clone, Copy)]
pub struct Sheet<'a> {
    pub headed: Headed<'a>,
    pub ghost good: { is_sheet headed.bytes.now ≡ true },
}

impl<'a> Sheet<'a> {
    ghost use Rattle.std.specs.Prelude.{◌<◌, IfSome, is_some};
    ghost use Rattle.params.specs.Sheet.{params_of, count_of};
    ghost use Rattle.params.specs.Inner.Noughts.{is_indexed};

    #[tactic(auto, unfolding(crate::specs::Sheet::is_sheet))]
    pub fn read(bytes: &'a [u8]) -> Option<Self>
        ensures value { is_some result ≡ is_sheet bytes.now }
        ensures bytes_same { IfSome result (λ sheet. sheet.headed.bytes ≡ bytes.entry) }
    {
        let headed = Headed::read(bytes)?;
        if headed.is_sheet() {
            Some(Sheet { headed })
        } else {
            None
        }
    }

    pub fn params(self) -> QueryParams
        ensures { result ≡ params_of self.entry.headed.bytes.now }
    {
        self.headed.params()
    }

    pub fn is_indexed(self) -> bool
        ensures { result ≡ is_indexed (params_of self.entry.headed.bytes.now) }
    {
        matches!(self.params(), QueryParams::Indexed)
    }

    pub fn count(self) -> usize
        ensures value { result ≡ count_of self.entry.headed.bytes.now }
        ensures upper_bound { result < 65536 }
    {
        self.headed.count()
    }
}

pub fn is_sheet(sheet: &[u8]) -> bool
    ensures { result ≡ is_sheet sheet.now }
{
    Sheet::read(sheet).is_some()
}
