// The gaps between the words of a phrase, each walked once however many phrases begin alike.
ghost use Rattle.std.specs.Prelude.{◌≡◌, ◌≤◌, length, drop};
ghost use Rattle.characters.specs.Runs.{run, in_class};
ghost use Rattle.characters.specs.declared.Class.TheVariants.{Whitespace};
ghost use Rattle.reserved.specs.Inner.Gaps.{AllMeasured};

use characters::Class;

// How much whitespace stands at a place of a rest.
#[derive(Clone, Copy)]
pub struct Gap {
    pub at: usize,
    pub len: usize,
}

// A rest, the last three gaps that were measured in it, and the last place where none stood, which pushes out no gap. (TEMP is looked for
// where TEMPORARY is written, and a gap behind it.)
#[derive(Drop)]
pub struct Gaps<'a> {
    pub rest: &'a [u8],
    pub kept: [Gap; 3],
    pub bare: usize,
    ghost measured: { AllMeasured rest.now kept },
    ghost none_there: { 0 ≡ run (in_class Whitespace) 0 (drop bare rest.now) },
}

impl<'a> Gaps<'a> {
    // No gap stands at the end.
    #[inline(always)]
    #[tactic(auto, using(crate::proofs::NoGap::none_measured, crate::proofs::NoGap::none_there))]
    pub fn none(rest: &'a [u8]) -> Self
        ensures { result.rest.now ≡ rest.now }
    {
        let end = Gap {
            at: rest.len(),
            len: 0,
        };
        Gaps {
            rest,
            kept: [end, end, end],
            bare: end.at,
        }
    }

    // How much whitespace stands at a place.
    #[inline(always)]
    pub fn length_at(&mut self, at: usize) -> usize
        requires at_in_bounds { at ≤ length self.old.rest.now }
        ensures value { result ≡ run (in_class Whitespace) 0 (drop at self.old.rest.now) }
        ensures rest { self.new.rest ≡ self.old.rest }
        ensures kept { result ≡ 0 → self.new.kept ≡ self.old.kept }
    {
        if self.bare == at {
            return 0;
        }
        for gap in self.kept {
            if gap.at == at {
                return gap.len;
            }
        }
        let len = characters::run_of(&self.rest[at..], Class::Whitespace);
        if len == 0 {
            self.bare = at;
        } else {
            self.kept = [Gap { at, len }, self.kept[0], self.kept[1]];
        }
        len
    }
}
