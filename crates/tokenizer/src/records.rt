// Token records: eight 32-bit words, the lowest byte first.
ghost use Rattle.std.specs.Prelude.{◌≡◌, ◌+◌, ◌≤◌, length};
ghost use Rattle.std.proofs.lemmas.List.Edits.{sets};
ghost use Rattle.tokenizer.specs.Records.{record_bytes, key_words, record_of};

use crate::{KeyWords, Token};
use calls::put_words;
use recognisers::{Key, kind_number};

pub const RECORD_BYTES: usize = 32;

// One arm for each number of a kind of key, as the header lists them.
pub fn key_words(key: Option<Key>) -> KeyWords
    ensures { result ≡ key_words key }
{
    match key {
        None => KeyWords {
            kind: 0,
            a: 0,
            b: 0,
        },
        Some(Key::Named { start, len }) => KeyWords {
            kind: 1,
            a: start as u64,
            b: len as u64,
        },
        Some(Key::Escaped { start, len }) => KeyWords {
            kind: 2,
            a: start as u64,
            b: len as u64,
        },
        Some(Key::ZeroIndexed(n)) => KeyWords {
            kind: 3,
            a: n / 4294967296,
            b: n % 4294967296,
        },
        Some(Key::OneIndexed(n)) => KeyWords {
            kind: 4,
            a: n / 4294967296,
            b: n % 4294967296,
        },
    }
}

// A record has a kind by its number.
#[tactic(auto, using(crate::proofs::RecordBytes::record_words))]
pub fn put_record(table: &mut [u8], at: usize, level: usize, token: Token)
    requires { at + record_bytes ≤ length table.old }
    ensures { table.new ≡ sets table.old at (record_of level token) }
{
    let key = key_words(token.key);
    let kind = kind_number(token.kind);
    let words = [
        kind,
        token.start as u64,
        token.len as u64,
        token.alias as u64,
        key.kind,
        key.a,
        key.b,
        level as u64,
    ];
    put_words(table, at, &words);
}
