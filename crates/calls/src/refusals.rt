// A refusal as two numbers, and as it is printed.
ghost use Rattle.std.specs.Prelude.{◌≡◌, ◌<◌, ◌++◌, Some, codes, decimal};
ghost use Rattle.calls.specs.Refusals.{refusal_number, refusal_detail};

use crate::Refusal;
use std::fmt;

impl Refusal {
    pub fn number(self) -> u64
        ensures value { result ≡ refusal_number self }
        ensures upper_bound { result < 9 }
    {
        match self {
            Refusal::Overlong(_) => 1,
            Refusal::NotUtf8(_) => 2,
            Refusal::Setting => 3,
            Refusal::TableFull(_) => 4,
            Refusal::Sheet => 5,
            Refusal::OutputFull(_) => 6,
            Refusal::PartsFull(_) => 7,
            Refusal::PlaceNought(_) => 8,
        }
    }

    pub fn detail(self) -> u64
        ensures { result ≡ refusal_detail self }
    {
        match self {
            Refusal::Setting | Refusal::Sheet => 0,
            Refusal::Overlong(n)
            | Refusal::NotUtf8(n)
            | Refusal::TableFull(n)
            | Refusal::OutputFull(n)
            | Refusal::PartsFull(n)
            | Refusal::PlaceNought(n) => n,
        }
    }
}

impl fmt::Display for Refusal {
    ghost output = { λ refusal. Some (codes "refused " ++ decimal (refusal_number refusal)) };

    fn fmt<W: fmt::Write>(&self, f: &mut fmt::Formatter<W>) -> fmt::Result {
        let number = self.number();
        write!(f, "refused {number}")
    }
}
