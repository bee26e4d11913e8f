//! Single tokens.

ghost use Rattle.std.specs.Prelude.{◌≡◌, ◌<◌, ◌≤◌, ◌^◌, true, false, Some, None, length, All, IfOk, IfSome, MatchOption, option_map, nat_le, if◌then◌else◌};
ghost use Rattle.std.specs.List.{prefix_len, list_all};
ghost use Rattle.cil_model.specs.Words.{is_word_byte, is_digit, are_segments};
ghost use Rattle.cil_model.specs.Lexemes.{value_from, with_sign};
ghost use Rattle.ilasm_tokens.specs.Steps.{Gives};
ghost use Rattle.ilasm_tokens.specs.Parts.{characters_of};
ghost use Rattle.ilasm_tokens.specs.Lexing.{run_at, word_token, limit, integer_of, integer_token, quoted_from, character_at, past_quote, quoted_token, colon_token, lexeme_at};

use crate::bytes::{Kind, begins_segment, escape, is_plain, is_word_byte, kind_of};
use crate::failure::Failure;
use crate::source_tokens::SourceToken;
use crate::words::use_of;
use cil_model::texts::Text;
use cil_model::tokens::Symbol;
use std::alloc::{AllocError, Global};
use std::str;

/// How many word bytes the bytes begin with.
fn run_length(bytes: &[u8]) -> usize
    ensures within { result ≤ length bytes.now }
    ensures value { result ≡ prefix_len is_word_byte bytes.now }
{
    bytes.iter().take_while(|byte| is_word_byte(**byte)).count()
}

/// The word bytes that the bytes begin with, and what is left.
#[tactic(auto, using(crate::proofs::Text::word_is_ascii), unfolding(crate::specs::Lexing::run_at))]
fn run(bytes: &[u8]) -> (&[u8], &[u8])
    ensures ascii { All (λ b. b < 128) result.0.now }
    ensures value { run_at bytes.now ≡ Some (result.0.now, result.1.now) }
{
    bytes.split_at(run_length(bytes))
}

/// Segments with one `.` between them, each a letter or `_`, then letters, digits and `_`.
fn are_segments(word: &[u8]) -> bool
    ensures { result ≡ are_segments true word.now }
{
    let mut begins = true;
    for byte in word {
        if begins && !begins_segment(*byte) {
            return false;
        }
        if !is_word_byte(*byte) {
            return false;
        }
        begins = *byte == b'.';
    }
    !begins
}

/// The text of bytes below 128.
#[tactic(auto, using(crate::proofs::Text::ascii_is_utf8))]
pub fn text_of(alloc: Global, bytes: &[u8]) -> Result<Text, AllocError>
    requires { All (λ b. b < 128) bytes.now }
    ensures { IfOk result (λ text. text ≡ bytes.now) }
{
    let text = str::from_utf8(bytes).unwrap();
    Ok(Text::new(String::from_str(alloc, text)?))
}

/// A reserved word or a name.
#[tactic(auto, unfolding(crate::specs::Lexing::word_token, crate::specs::Steps::bind))]
fn word(bytes: &[u8]) -> Result<(SourceToken<'_>, &[u8]), Failure>
    ensures { Gives (λ x. (x.0, x.1.now)) result (word_token bytes.now) }
{
    let (word, rest) = run(bytes);
    if use_of(word).is_some() {
        Ok((SourceToken::of_reserved(word), rest))
    } else if are_segments(word) {
        Ok((SourceToken::of_name(word), rest))
    } else {
        Err(Failure::no_token(bytes.len()))
    }
}

fn are_digits(bytes: &[u8]) -> bool
    ensures { result ≡ list_all is_digit bytes.now }
{
    for byte in bytes {
        if !byte.is_ascii_digit() {
            return false;
        }
    }
    true
}

/// The value of digits, unless it is beyond 64 bits.
fn value_of(digits: &[u8]) -> Option<u64>
    ensures { MatchOption result (2 ^ 63 < value_from 0 digits.now) (λ n. n ≡ value_from 0 digits.now) }
{
    let mut value = 0u64;
    for digit in digits {
        if value > 922_337_203_685_477_580 {
            return None;
        }
        value = 10 * value + u64::from(digit.saturating_sub(b'0'));
    }
    Some(value)
}

fn positive(value: u64) -> Option<i64>
    ensures { result ≡ (if nat_le value (limit false) then Some (with_sign false value) else None) }
{
    if value > 0x7fff_ffff_ffff_ffff {
        return None;
    }
    Some(value as i64)
}

fn negative(value: u64) -> Option<i64>
    ensures { result ≡ (if nat_le value (limit true) then Some (with_sign true value) else None) }
{
    if value > 0x8000_0000_0000_0000 {
        return None;
    }
    if value == 0x8000_0000_0000_0000 {
        return Some(i64::MIN);
    }
    Some(-(value as i64))
}

/// The integer of these digits, if it has 64 bits.
#[tactic(auto, unfolding(crate::specs::Lexing::integer_of))]
fn integer_of(is_negative: bool, digits: &[u8]) -> Option<i64>
    ensures { result ≡ integer_of is_negative digits.now }
{
    if digits.is_empty() {
        return None;
    }
    if !are_digits(digits) {
        return None;
    }
    let value = value_of(digits)?;
    if is_negative {
        negative(value)
    } else {
        positive(value)
    }
}

/// An integer, after its sign. It began where `left` bytes were left.
#[tactic(auto, unfolding(crate::specs::Lexing::integer_token, crate::specs::Lexing::run_at, crate::specs::Steps::bind))]
fn integer(
    is_negative: bool,
    bytes: &[u8],
    left: usize,
) -> Result<(SourceToken<'_>, &[u8]), Failure>
    ensures { Gives (λ x. (x.0, x.1.now)) result (integer_token is_negative bytes.now) }
{
    let (digits, rest) = run(bytes);
    let Some(value) = integer_of(is_negative, digits) else {
        return Err(Failure::no_token(left));
    };
    Ok((SourceToken::of_integer(value), rest))
}

/// A character of a literal, or `None` for the quote that ends it, and what is left after it.
#[tactic(auto, unfolding(crate::specs::Lexing::character_at, crate::specs::Lexing::escaped_at, crate::specs::Steps::bind))]
fn character(bytes: &[u8]) -> Option<(Option<u8>, &[u8])>
    ensures shorter { IfSome result (λ x. length x.1.now < length bytes.now) }
    ensures ascii { IfSome result (λ x. IfSome x.0 (λ c. c < 128)) }
    ensures value { option_map (λ x. (x.0, x.1.now)) result ≡ character_at bytes.now }
{
    match bytes {
        [b'"', rest @ ..] => Some((None, rest)),
        [b'\\', byte, rest @ ..] => Some((Some(escape(*byte)?), rest)),
        [first, rest @ ..] if is_plain(*first) => Some((Some(*first), rest)),
        _ => None,
    }
}

/// What is left after the quote that ends a literal; `None` where none does, or where something is before it that is
/// no character.
#[tactic(auto, using(crate::proofs::Text::passes, crate::proofs::Text::at_quote, crate::proofs::Text::no_character), unfolding(crate::specs::Lexing::past_quote))]
fn after_quote(bytes: &[u8]) -> Option<&[u8]>
    ensures { option_map (λ r. r.now) result ≡ past_quote (quoted_from false bytes.now) }
{
    let mut rest = bytes;
    while let Some((found, after)) = character(rest) {
        let Some(_) = found else {
            return Some(after);
        };
        rest = after;
    }
    None
}

/// The characters of a literal up to its quote, and what is left after that. It is refused where it has no end.
#[tactic(auto, using(crate::proofs::Text::takes, crate::proofs::Text::at_end, crate::proofs::Text::at_fault), unfolding(crate::specs::Steps::with_front))]
fn characters(alloc: Global, bytes: &[u8]) -> Result<(Vec<u8>, &[u8]), Failure>
    ensures ascii { IfOk result (λ x. All (λ b. b < 128) x.0.items) }
    ensures value { Gives (λ x. (x.0.items, x.1.now)) result (quoted_from false bytes.now) }
{
    let mut text = Vec::new(alloc);
    let mut rest = bytes;
    while let Some((found, after)) = character(rest) {
        match found {
            Some(byte) => text.push(byte)?,
            None => return Ok((text, after)),
        }
        rest = after;
    }
    Err(Failure::no_token(bytes.len()))
}

/// The text of the characters of a literal up to its quote; an empty one where it has no end.
#[tactic(auto, using(crate::proofs::Text::ascii_is_utf8), unfolding(crate::specs::Parts::characters_of, crate::specs::Steps::choice))]
pub fn text_of_literal(alloc: Global, bytes: &[u8]) -> Result<Text, AllocError>
    ensures { IfOk result (λ text. text ≡ characters_of bytes.now) }
{
    match characters(alloc, bytes) {
        Ok((characters, _rest)) => Ok(Text::new(String::from_utf8(characters).unwrap())),
        Err(Failure::Refused { .. }) => Ok(Text::new(String::new(alloc))),
        Err(Failure::OutOfMemory) => Err(AllocError),
    }
}

/// A string literal, after its first quote, where `left` bytes were left.
#[tactic(auto, using(crate::proofs::Text::literal_before, crate::proofs::Text::no_literal))]
fn quoted_text(bytes: &[u8], left: usize) -> Result<(SourceToken<'_>, &[u8]), Failure>
    ensures { Gives (λ x. (x.0, x.1.now)) result (quoted_token bytes.now) }
{
    match after_quote(bytes) {
        Some(rest) => Ok((SourceToken::of_literal(bytes), rest)),
        None => Err(Failure::no_token(left)),
    }
}

/// One colon or two, after the first.
#[tactic(auto, unfolding(crate::specs::Lexing::colon_token))]
fn colon(bytes: &[u8]) -> (SourceToken<'_>, &[u8])
    ensures { colon_token bytes.now ≡ Some (result.0, result.1.now) }
{
    match bytes {
        [b':', rest @ ..] => (SourceToken::of_symbol(Symbol::DoubleColon), rest),
        _ => (SourceToken::of_symbol(Symbol::Colon), bytes),
    }
}

/// The longest token that the bytes begin with, and what is left after it.
#[tactic(auto, unfolding(crate::specs::Lexing::lexeme_at, crate::specs::Lexing::token_of_kind))]
pub fn lexeme(bytes: &[u8]) -> Result<(SourceToken<'_>, &[u8]), Failure>
    ensures { Gives (λ x. (x.0, x.1.now)) result (lexeme_at bytes.now) }
{
    let [first, rest @ ..] = bytes else {
        return Err(Failure::no_token(0));
    };
    match kind_of(*first) {
        Kind::Word => word(bytes),
        Kind::Digit => integer(false, bytes, bytes.len()),
        Kind::Minus => integer(true, rest, bytes.len()),
        Kind::Quote => quoted_text(rest, bytes.len()),
        Kind::Colon => Ok(colon(rest)),
        Kind::Single(symbol) => Ok((SourceToken::of_symbol(symbol), rest)),
        Kind::Nothing => Err(Failure::no_token(bytes.len())),
    }
}
