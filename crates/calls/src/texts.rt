// The answer of a call that tells one number, as two: 0 and that number, or the refusal's.
ghost use Rattle.std.specs.Prelude.{◌≡◌, ◌<◌};
ghost use Rattle.calls.specs.Texts.{text_number, text_detail};

use crate::Refusal;

pub fn numbers_of(answer: Result<u64, Refusal>) -> (u64, u64)
    ensures number { result.0 ≡ text_number answer }
    ensures number_bound { result.0 < 9 }
    ensures detail { result.1 ≡ text_detail answer }
{
    match answer {
        Ok(detail) => (0, detail),
        Err(refusal) => (refusal.number(), refusal.detail()),
    }
}
