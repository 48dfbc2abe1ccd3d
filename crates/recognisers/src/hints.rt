// What looks that failed tell of later ones.
ghost use Rattle.std.specs.Prelude.{◌≡◌};
ghost use Rattle.recognisers.specs.Inner.Known.{nothing_known};

// For each closing sign, the length of the longest rest that is known to lack it; and for a line that a CR without LF ends, the lengths
// of its shortest and its longest rest.
#[derive(Clone, Copy)]
pub struct Hints {
    pub square: usize,
    pub double: usize,
    pub single: usize,
    pub brace: usize,
    pub line_shortest: usize,
    pub line_longest: usize,
}

// Nothing is known at first: no line is as short as 1 and as long as 0. (By one comparison each; an Option would be asked for besides, and
// be no plainer.)
pub fn no_hints() -> Hints
    ensures { result ≡ nothing_known }
{
    Hints {
        square: 0,
        double: 0,
        single: 0,
        brace: 0,
        line_shortest: 1,
        line_longest: 0,
    }
}
