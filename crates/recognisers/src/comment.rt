// `get_comment_token`.
ghost use Rattle.std.specs.Prelude.{◌≡◌, ◌||◌, ◌==◌, position, Some};
ghost use Rattle.recognisers.specs.Text.{byte, bytes};
ghost use Rattle.recognisers.specs.Taking.{literal};
ghost use Rattle.recognisers.specs.Comment.{till_line_ending, through_block_end, get_comment_token};

use crate::rest::Rest;
use crate::scan::{first_among, is_lone, token_of};
use crate::{Piece, TokenKind};

// Where the first CR or LF stands.
#[inline(always)]
pub fn line_break(rest: &[u8]) -> Option<usize>
    ensures { result ≡ position (λ b. b == byte "\n" || b == byte "\r") rest.now }
{
    rest.iter().position(|b| *b == b'\n' || *b == b'\r')
}

// Up to LF, CR LF or the end; a CR without LF is refused.
pub fn till_line_ending(rest: &[u8]) -> Option<usize>
    ensures { result ≡ till_line_ending rest.now }
{
    let Some(i) = line_break(rest) else {
        return Some(rest.len());
    };
    if is_lone(&rest[i..], b'\r', b'\n') {
        return None;
    }
    Some(i)
}

// Through the first `*/`, else to the end.
fn through_block_end(rest: &[u8]) -> usize
    ensures { Some result ≡ through_block_end rest.now }
{
    let mut pairs = rest.array_windows::<2>();
    match pairs.position(|pair| pair[0] == b'*' && pair[1] == b'/') {
        Some(i) => i + 2,
        None => rest.len(),
    }
}

// `till_line_ending` by what is known: a line that a CR without LF ends is not read again.
fn till_line_ending_known(rest: Rest<'_>) -> Option<usize>
    ensures { result ≡ till_line_ending rest.entry.text.now }
{
    let n = rest.text.len();
    if rest.hints.line_shortest <= n && n <= rest.hints.line_longest {
        return None;
    }
    till_line_ending(rest.text)
}

// By a call: in it twice, the step would be too large to be compiled into the loops.
fn line_comment(rest: Rest<'_>, mark: &[u8]) -> Option<usize>
    ensures { result ≡ literal mark.now till_line_ending rest.entry.text.now }
{
    if !rest.text.starts_with(mark) {
        return None;
    }
    let n = mark.len();
    Some(n + till_line_ending_known(rest.behind(n))?)
}

fn block_comment(rest: &[u8]) -> Option<usize>
    ensures { result ≡ literal (bytes "/*") through_block_end rest.now }
{
    let behind = rest.strip_prefix(b"/*")?;
    Some(2 + through_block_end(behind))
}

// Each first byte leaves one mark.
#[inline(always)]
pub fn get_comment_token(rest: Rest<'_>) -> Option<Piece>
    ensures { result ≡ get_comment_token rest.entry.text.now }
{
    let first = first_among(rest.text, b"#-/")?;
    match first {
        b'#' => token_of(TokenKind::LineComment, line_comment(rest, b"#")),
        b'-' => token_of(TokenKind::LineComment, line_comment(rest, b"--")),
        _ => token_of(TokenKind::BlockComment, block_comment(rest.text)),
    }
}
