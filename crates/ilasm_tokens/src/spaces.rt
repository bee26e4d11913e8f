//! White space and comments.

ghost use Rattle.std.specs.Prelude.{◌≡◌, ◌≤◌, None, length, IfSome, MatchOption};
ghost use Rattle.cil_model.specs.Lexemes.{skip_gap, between, in_line, in_block};
ghost use Rattle.ilasm_tokens.specs.Steps.{Gives};

use crate::bytes::is_white;
use crate::failure::Failure;

/// What is left after a comment that continues to the end of the line.
fn after_line(bytes: &[u8]) -> &[u8]
    ensures within { length result.now ≤ length bytes.now }
    ensures value { skip_gap in_line bytes.now ≡ skip_gap between result.now }
{
    let mut rest = bytes;
    while let [byte, after @ ..] = rest {
        rest = after;
        if *byte == b'\n' {
            return rest;
        }
    }
    rest
}

/// What is left after a comment that continues to the next `*/`.
fn after_block(bytes: &[u8]) -> Option<&[u8]>
    ensures within { IfSome result (λ r. length r.now ≤ length bytes.now) }
    ensures value { MatchOption result (skip_gap in_block bytes.now ≡ None) (λ r. skip_gap in_block bytes.now ≡ skip_gap between r.now) }
{
    let mut rest = bytes;
    let mut star = false;
    while let [byte, after @ ..] = rest {
        rest = after;
        if star && *byte == b'/' {
            return Some(rest);
        }
        star = *byte == b'*';
    }
    None
}

/// What is left after white space and comments.
pub fn after_spaces(bytes: &[u8]) -> Result<&[u8], Failure>
    ensures { Gives (λ r. r.now) result (skip_gap between bytes.now) }
{
    let mut rest = bytes;
    while let [first, after @ ..] = rest {
        if is_white(*first) {
            rest = after;
        } else if *first == b'/' {
            let [second, comment @ ..] = after else {
                return Ok(rest);
            };
            if *second == b'/' {
                rest = after_line(comment);
            } else if *second == b'*' {
                let Some(outside) = after_block(comment) else {
                    return Err(Failure::no_token(rest.len()));
                };
                rest = outside;
            } else {
                return Ok(rest);
            }
        } else {
            return Ok(rest);
        }
    }
    Ok(rest)
}
