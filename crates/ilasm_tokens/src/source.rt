//! The tokens of a whole source.

ghost use Rattle.ilasm_tokens.specs.Steps.{Gives};
ghost use Rattle.ilasm_tokens.specs.Answers.{IsTokenAnswer};
ghost use Rattle.ilasm_tokens.specs.Lexing.{offset_of, spaced_lexeme_at};

use crate::failure::Failure;
use crate::lexemes::lexeme;
use crate::source_tokens::SourceToken;
use crate::spaces::after_spaces;
use cil_model::sequences::Sequence;
use std::alloc::Global;

/// A token with the white space after it seldom has fewer bytes, so memory for one token per this number of bytes is taken at once.
const BYTES_A_TOKEN: usize = 4;

/// A token, and what is left after the white space and comments that follow it.
#[tactic(auto, unfolding(crate::specs::Lexing::spaced_lexeme_at, crate::specs::Steps::bind))]
fn spaced_lexeme(bytes: &[u8]) -> Result<(SourceToken<'_>, &[u8]), Failure>
    ensures { Gives (λ x. (x.0, x.1.now)) result (spaced_lexeme_at bytes.now) }
{
    let (token, rest) = lexeme(bytes)?;
    Ok((token, after_spaces(rest)?))
}

/// The tokens of a source (ECMA-335 II.5.2). They are refused where no list of tokens is the source's;
/// `left` is then how many bytes are left at the first position where none begins.
pub fn tokens(alloc: Global, source: &[u8]) -> Result<Sequence<SourceToken<'_>>, Failure>
    ensures { IsTokenAnswer source.now result }
{
    let mut tokens = Vec::with_capacity(alloc, source.len() / BYTES_A_TOKEN)?;
    let mut rest = after_spaces(source)?;
    while !rest.is_empty() {
        let (token, after) = spaced_lexeme(rest)?;
        tokens.push(token)?;
        rest = after;
    }
    Ok(Sequence::new(tokens))
}

/// Where the token of this number begins, counted in bytes, or the end of the source after its last token. Tokens are
/// counted from 0. It is refused where the source has no such token, since too few tokens can be read.
pub fn token_offset(source: &[u8], number: usize) -> Result<usize, Failure>
    ensures { Gives (λ offset. offset) result (offset_of number source.now) }
{
    let mut rest = after_spaces(source)?;
    for _ in 0..number {
        let (_token, after) = spaced_lexeme(rest)?;
        rest = after;
    }
    Ok(source.len() - rest.len())
}
