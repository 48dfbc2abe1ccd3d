// A part of the statement or of the sheet: its length, its bytes, and the bytes put into an output.
ghost use Rattle.std.specs.Prelude.{◌≡◌, ◌+◌, ◌≤◌, length};
ghost use Rattle.std.proofs.lemmas.List.Edits.{sets};
ghost use Rattle.params.specs.Filled.{part_bytes, part_length, part_start};
ghost use Rattle.params.specs.Inner.Inside.{PartInside};

use crate::Part;
use calls::put_bytes;

pub fn part_length(part: Part) -> usize
    ensures { result ≡ part_length part }
{
    match part {
        Part::Statement { len, .. } | Part::Sheet { len, .. } => len,
    }
}

pub fn put_part(statement: &[u8], sheet: &[u8], part: Part, output: &mut [u8], at: usize)
    requires part_inside { PartInside statement.now sheet.now part }
    requires part_in_bounds { at + part_length part ≤ length output.old }
    ensures { output.new ≡ sets output.old at (part_bytes statement.now sheet.now part) }
{
    put_bytes(part_of(statement, sheet, part), output, at);
}

// The part itself, of one of two sources: which one, and where in it, is told by where the part starts in memory.
pub fn part_of<'a>(statement: &'a [u8], sheet: &'a [u8], part: Part) -> &'a [u8]
    requires { PartInside statement.now sheet.now part }
    ensures result_value { result.now ≡ part_bytes statement.now sheet.now part }
    ensures ref_ptr_value { result.ref_ptr ≡ part_start statement.entry.ref_ptr sheet.entry.ref_ptr part }
{
    match part {
        Part::Statement { start, len } => {
            let end = start + len;
            &statement[start..end]
        }
        Part::Sheet { start, len } => {
            let end = start + len;
            &sheet[start..end]
        }
    }
}
