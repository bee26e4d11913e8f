//! Reads the text of a `.run` file.

ghost use Rattle.std.specs.Prelude.{◌≡◌, ◌≢◌, ◌≤◌, ◌<◌, ◌++◌, ◌∷◌, ℕ, List, IfSome, IsTrue, ◌↔◌, Some, true, length, option_map, slice_index};
ghost use Rattle.std.specs.Fmt.{decimal};
ghost use Rattle.cil_model.specs.Ranges.{are_in_range};
ghost use Rattle.cil_model.specs.declared.limits.Limits.{Limits as AnyLimits};
ghost use Rattle.hex.specs.Hex.{encode_lower};
ghost use Rattle.run_files.specs.RunFiles.{IsChecksum, IsRunFile, limits_text, line, text_of};
ghost use Rattle.run_files.specs.declared.file.RunFile.{RunFile as AnyFile};

use crate::file::{CHECKSUM_BYTES, MOST_WORKERS, RunFile};
use cil_model::limits::{LEAST_WORDS, Limits, MOST_BUDGET, MOST_DEPTH, MOST_WORDS};
use hex::{FromHex, encode_to_slice};
use itoa::Buffer;
use std::str;

/// The number of the error of a file that is not a `.run` file.
pub const MALFORMED: u16 = 505;

/// What the bytes of a `.run` file say. None if they are not the text of one of this version, or a number is out of its range.
pub fn read(bytes: &[u8]) -> Option<RunFile>
    ensures read { IfSome result (λ file. IsRunFile file × (bytes.now ≡ text_of file)) }
    ensures found { (file : AnyFile) → IsRunFile file → bytes.now ≡ text_of file → result ≡ Some file }
{
    match str::from_utf8(bytes) {
        Ok(text) => read_text(text),
        Err(_) => None,
    }
}

/// What the text of a `.run` file says.
fn read_text(text: &str) -> Option<RunFile>
    ensures read { IfSome result (λ file. IsRunFile file × (text.now ≡ text_of file)) }
    ensures found { (file : AnyFile) → IsRunFile file → text.now ≡ text_of file → result ≡ Some file }
{
    let rest = text.strip_prefix("cilvm-run: 1\n")?;
    let (source, rest) = checksum_line(rest, "source: ")?;
    let (limits, rest) = limit_lines(rest)?;
    let (workers, rest) = number_line(rest, "workers: ", 1, MOST_WORKERS)?;
    let (output, rest) = checksum_line(rest, "output: ")?;
    if !rest.is_empty() {
        return None;
    }
    Some(RunFile {
        source,
        limits,
        workers,
        output,
    })
}

/// The limits in the first lines of a text, and the text after these lines.
fn limit_lines(text: &str) -> Option<(Limits, &str)>
    ensures read { IfSome result (λ l. (are_in_range l.0 ≡ true) × (text.now ≡ limits_text l.0 l.1.now)) }
    ensures found { (l : AnyLimits) (rest : List ℕ) → are_in_range l ≡ true → text.now ≡ limits_text l rest
        → option_map {U = AnyLimits × List ℕ} (λ l. (l.0, l.1.now)) result ≡ Some (l, rest) }
{
    let (words, rest) = number_line(text, "words: ", LEAST_WORDS, MOST_WORDS)?;
    let (max_words, rest) = number_line(rest, "max-words: ", words, MOST_WORDS)?;
    let (budget, rest) = number_line(rest, "budget: ", 1, MOST_BUDGET)?;
    let (depth, rest) = number_line(rest, "depth: ", 1, MOST_DEPTH)?;
    let limits = Limits {
        words,
        max_words,
        budget,
        depth,
    };
    Some((limits, rest))
}

/// The checksum in the first line of a text, whose name is this, and the text after the line.
fn checksum_line<'a>(text: &'a str, name: &str) -> Option<([u8; CHECKSUM_BYTES], &'a str)>
    ensures read { IfSome result (λ sum. IsChecksum sum.0 × (text.now ≡ line name.now (encode_lower sum.0) sum.1.now)) }
    ensures found { (bytes : List ℕ) (rest : List ℕ) → IsChecksum bytes → text.now ≡ line name.now (encode_lower bytes) rest
        → option_map {U = List ℕ × List ℕ} (λ sum. (sum.0, sum.1.now)) result ≡ Some (bytes, rest) }
{
    let (value, rest) = value_line(text, name)?;
    let bytes = checksum_of(value)?;
    Some((bytes, rest))
}

/// The checksum that has this text: 64 digits in lower case.
fn checksum_of(text: &str) -> Option<[u8; CHECKSUM_BYTES]>
    ensures read { IfSome result (λ sum. IsChecksum sum × (text.now ≡ encode_lower sum)) }
    ensures found { (bytes : List ℕ) → IsChecksum bytes → text.now ≡ encode_lower bytes → result ≡ Some bytes }
{
    match <[u8; CHECKSUM_BYTES]>::from_hex(text) {
        Ok(bytes) if is_text_of(text, &bytes) => Some(bytes),
        _ => None,
    }
}

/// Whether a checksum has this text.
fn is_text_of(text: &str, bytes: &[u8; CHECKSUM_BYTES]) -> bool
    ensures { IsTrue result ↔ (text.now ≡ encode_lower bytes.now) }
{
    let mut digits = [0; 2 * CHECKSUM_BYTES];
    match encode_to_slice(bytes.as_slice(), &mut digits) {
        Ok(()) => text.as_bytes() == digits.as_slice(),
        Err(_) => unreachable!(),
    }
}

/// The number in the first line of a text, whose name is this, and the text after the line.
fn number_line<'a>(text: &'a str, name: &str, least: u32, most: u32) -> Option<(u32, &'a str)>
    ensures read { IfSome result (λ n. (least ≤ n.0) × (n.0 ≤ most) × (text.now ≡ line name.now (decimal n.0) n.1.now)) }
    ensures found { (n : ℕ) (rest : List ℕ) → least ≤ n → n ≤ most → text.now ≡ line name.now (decimal n) rest
        → option_map {U = ℕ × List ℕ} (λ n. (n.0, n.1.now)) result ≡ Some (n, rest) }
{
    let (value, rest) = value_line(text, name)?;
    let number = number_of(value, least, most)?;
    Some((number, rest))
}

/// The number in this range that has this text, without leading zeros.
fn number_of(text: &str, least: u32, most: u32) -> Option<u32>
    ensures read { IfSome result (λ n. (least ≤ n) × (n ≤ most) × (text.now ≡ decimal n)) }
    ensures found { (n : ℕ) → least ≤ n → n ≤ most → text.now ≡ decimal n → result ≡ Some n }
{
    match text.parse::<u32>() {
        Ok(number) if is_between(number, least, most) && is_decimal_of(text, number) => {
            Some(number)
        }
        _ => None,
    }
}

fn is_between(number: u32, least: u32, most: u32) -> bool
    ensures { IsTrue result ↔ ((least ≤ number) × (number ≤ most)) }
{
    least <= number && number <= most
}

/// Whether a number has this text.
fn is_decimal_of(text: &str, number: u32) -> bool
    ensures { IsTrue result ↔ (text.now ≡ decimal number) }
{
    let mut digits = Buffer::new();
    digits.format(number) == text
}

/// The value in the first line of a text, whose name is this, and the text after the line.
fn value_line<'a>(text: &'a str, name: &str) -> Option<(&'a str, &'a str)>
    ensures read { IfSome result (λ parts. text.now ≡ line name.now parts.0.now parts.1.now) }
    ensures found { (value rest : List ℕ) → ((i : ℕ) → i < length value → slice_index value i ≢ 10) → text.now ≡ line name.now value rest
        → option_map {U = List ℕ × List ℕ} (λ parts. (parts.0.now, parts.1.now)) result ≡ Some (value, rest) }
{
    let rest = text.strip_prefix(name)?;
    rest.split_once('\n')
}
