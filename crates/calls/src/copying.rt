// Bytes copied to a place in an output. `copy_from_slice` says what becomes of the place, `put_bytes` of the whole output.
// Output and place go as two wherever something is put: a writer of both would hold the output for the whole walk, while each walk's
// contract speaks of the output before and after.
ghost use Rattle.std.specs.Prelude.{◌≡◌, ◌+◌, ◌≤◌, length};
ghost use Rattle.std.proofs.lemmas.List.Edits.{sets};

#[tactic(auto, using(crate::proofs::Storing::copy_put))]
pub fn put_bytes(bytes: &[u8], output: &mut [u8], at: usize)
    requires { at + length bytes.now ≤ length output.old }
    ensures { output.new ≡ sets output.old at bytes.now }
{
    output[at..at + bytes.len()].copy_from_slice(bytes);
}
