// Numbers of so many bytes, the lowest first.
ghost use Rattle.std.specs.Prelude.{◌≡◌, ◌+◌, ◌*◌, ◌^◌, ◌≤◌, ◌<◌, length};
ghost use Rattle.std.proofs.lemmas.List.Edits.{sets};
ghost use Rattle.calls.specs.LittleEndian.{low_bytes, number_at, words_of};

use crate::copying::put_bytes;

#[inline(always)]
#[tactic(auto, using(crate::proofs::NumberBytes::low_bytes_lem))]
pub fn put_le<const N: usize>(bytes: &mut [u8], at: usize, n: u64)
    requires width { N ≤ 8 }
    requires in_bounds { at + N ≤ length bytes.old }
    ensures { bytes.new ≡ sets bytes.old at (low_bytes N n) }
{
    let low = n.to_le_bytes();
    put_bytes(&low[..N], bytes, at);
}

// Words of 32 bits, one behind the other.
#[inline(always)]
#[tactic(auto, using(crate::proofs::Words::words_start, crate::proofs::Words::words_more))]
pub fn put_words(bytes: &mut [u8], at: usize, words: &[u64])
    requires { at + 4 * length words.now ≤ length bytes.old }
    ensures { bytes.new ≡ sets bytes.old at (words_of words.now) }
{
    for (i, word) in words.iter().enumerate() {
        put_le::<4>(bytes, at + 4 * i, *word);
    }
}

#[inline(always)]
#[tactic(auto, using(crate::proofs::NumberBytes::filled, crate::proofs::NumberBytes::number_below))]
pub fn le_at<const N: usize>(bytes: &[u8], at: usize) -> usize
    requires width { N ≤ 8 }
    requires in_bounds { at + N ≤ length bytes.now }
    ensures value { result ≡ number_at N bytes.now at }
    ensures upper_bound { result < 256 ^ N }
{
    let mut all = [0; 8];
    put_bytes(&bytes[at..at + N], &mut all, 0);
    usize::from_le_bytes(all)
}
