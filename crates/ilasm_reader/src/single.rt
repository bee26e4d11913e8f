//! Single tokens.

ghost use Rattle.std.specs.Prelude.{◌≡◌, is_some, map, option_map};
ghost use Rattle.ilasm_tokens.specs.Steps.{Gives};
ghost use Rattle.ilasm_reader.specs.Parsing.{Takes, word_at, words_at, sign_at, empty_block_at, any_word_at, name_at, integer_at, quoted_at, flag_at};

use cil_model::texts::Text;
use cil_model::tokens::Symbol;
use ilasm_tokens::expected::Expected;
use ilasm_tokens::failure::Failure;
use ilasm_tokens::source_tokens::Tokens;
use std::alloc::Global;

/// Takes a reserved word, if it is here, and returns whether it is.
#[tactic(auto, unfolding(crate::specs::Parsing::word_at, crate::specs::Parsing::flag_at, ilasm_tokens::specs::Steps::choice))]
pub fn take_word(tokens: &mut Tokens<'_>, word: &[u8]) -> bool
    ensures taken { Takes result tokens.old.now tokens.new.now (word_at word.now tokens.old.now) }
    ensures flag { (result, tokens.new.now) ≡ flag_at word.now tokens.old.now }
{
    match *tokens {
        [first, rest @ ..] if first.reserved_word() == Some(word) => {
            *tokens = rest;
            true
        }
        _ => false,
    }
}

/// Takes a symbol, if it is here, and returns whether it is.
#[tactic(auto, unfolding(crate::specs::Parsing::sign_at, ilasm_tokens::specs::Steps::choice))]
pub fn take_symbol(tokens: &mut Tokens<'_>, symbol: Symbol) -> bool
    ensures { Takes result tokens.old.now tokens.new.now (sign_at symbol tokens.old.now) }
{
    match *tokens {
        [first, rest @ ..] if first.symbol() == Some(symbol) => {
            *tokens = rest;
            true
        }
        _ => false,
    }
}

/// Takes a name, if one is here, and returns whether one is.
#[tactic(auto, unfolding(crate::specs::Parsing::name_at, ilasm_tokens::specs::Steps::choice))]
pub fn take_name(tokens: &mut Tokens<'_>) -> bool
    ensures { Takes result tokens.old.now tokens.new.now (option_map (λ x. x.1) (name_at tokens.old.now)) }
{
    match *tokens {
        [first, rest @ ..] if first.is_name() => {
            *tokens = rest;
            true
        }
        _ => false,
    }
}

/// Whether a reserved word is here.
pub fn starts_word(tokens: Tokens<'_>, word: &[u8]) -> bool
    ensures { result ≡ is_some (word_at word.now tokens.now) }
{
    let mut ahead = tokens;
    take_word(&mut ahead, word)
}

/// Whether a symbol is here.
pub fn starts_symbol(tokens: Tokens<'_>, symbol: Symbol) -> bool
    ensures { result ≡ is_some (sign_at symbol tokens.now) }
{
    let mut ahead = tokens;
    take_symbol(&mut ahead, symbol)
}

/// Takes a reserved word, which must be here. Where it is not, the grammar has what is given as `expected`.
pub fn expect_word_of(
    tokens: &mut Tokens<'_>,
    word: &[u8],
    expected: Expected,
) -> Result<(), Failure>
    ensures { Gives (λ _. tokens.new.now) result (word_at word.now tokens.old.now) }
{
    if take_word(tokens, word) {
        Ok(())
    } else {
        Err(Failure::Refused {
            left: tokens.len(),
            expected,
        })
    }
}

/// Takes a reserved word, which alone may be here.
pub fn expect_word(tokens: &mut Tokens<'_>, word: &'static [u8]) -> Result<(), Failure>
    ensures { Gives (λ _. tokens.new.now) result (word_at word.now tokens.old.now) }
{
    expect_word_of(tokens, word, Expected::Word(word))
}

/// Takes reserved words, one after the other, each of which is the only one allowed at its position.
pub fn expect_words(tokens: &mut Tokens<'_>, words: &[&'static [u8]]) -> Result<(), Failure>
    ensures { Gives (λ _. tokens.new.now) result (words_at (map (λ word. word.now) words.now) tokens.old.now) }
{
    for word in words {
        expect_word(tokens, word)?;
    }
    Ok(())
}

/// Takes a symbol, which must be here. Where it is not, the grammar has what is given as `expected`.
pub fn expect_symbol_of(
    tokens: &mut Tokens<'_>,
    symbol: Symbol,
    expected: Expected,
) -> Result<(), Failure>
    ensures { Gives (λ _. tokens.new.now) result (sign_at symbol tokens.old.now) }
{
    if take_symbol(tokens, symbol) {
        Ok(())
    } else {
        Err(Failure::Refused {
            left: tokens.len(),
            expected,
        })
    }
}

/// Takes a symbol, which alone may be here.
pub fn expect_symbol(tokens: &mut Tokens<'_>, symbol: Symbol) -> Result<(), Failure>
    ensures { Gives (λ _. tokens.new.now) result (sign_at symbol tokens.old.now) }
{
    expect_symbol_of(tokens, symbol, Expected::Symbol(symbol))
}

/// Takes a pair of braces with nothing between.
#[tactic(auto, unfolding(crate::specs::Parsing::empty_block_at, ilasm_tokens::specs::Steps::bind))]
pub fn empty_block(tokens: &mut Tokens<'_>) -> Result<(), Failure>
    ensures { Gives (λ _. tokens.new.now) result (empty_block_at tokens.old.now) }
{
    expect_symbol(tokens, Symbol::OpenBrace)?;
    expect_symbol(tokens, Symbol::CloseBrace)
}

/// A reserved word. Where there is none, the grammar has what is given as `expected`.
#[tactic(auto, unfolding(crate::specs::Parsing::any_word_at, ilasm_tokens::specs::Steps::choice))]
pub fn any_word<'a>(tokens: &mut Tokens<'a>, expected: Expected) -> Result<&'a [u8], Failure>
    ensures { Gives (λ x. (x.now, tokens.new.now)) result (any_word_at tokens.old.now) }
{
    let [first, rest @ ..] = *tokens else {
        return Err(Failure::Refused { left: 0, expected });
    };
    let Some(found) = first.reserved_word() else {
        return Err(Failure::Refused {
            left: tokens.len(),
            expected,
        });
    };
    *tokens = rest;
    Ok(found)
}

/// A name. Where there is none, the grammar has what is given as `expected`.
#[tactic(auto, unfolding(crate::specs::Parsing::name_at, ilasm_tokens::specs::Steps::choice))]
pub fn name(alloc: Global, tokens: &mut Tokens<'_>, expected: Expected) -> Result<Text, Failure>
    ensures { Gives (λ x. (x, tokens.new.now)) result (name_at tokens.old.now) }
{
    let [first, rest @ ..] = *tokens else {
        return Err(Failure::Refused { left: 0, expected });
    };
    let Some(found) = first.name(alloc)? else {
        return Err(Failure::Refused {
            left: tokens.len(),
            expected,
        });
    };
    *tokens = rest;
    Ok(found)
}

/// An integer. Where there is none, the grammar has what is given as `expected`.
#[tactic(auto, unfolding(crate::specs::Parsing::integer_at, ilasm_tokens::specs::Steps::choice))]
pub fn integer(tokens: &mut Tokens<'_>, expected: Expected) -> Result<i64, Failure>
    ensures { Gives (λ x. (x, tokens.new.now)) result (integer_at tokens.old.now) }
{
    let [first, rest @ ..] = *tokens else {
        return Err(Failure::Refused { left: 0, expected });
    };
    let Some(found) = first.integer() else {
        return Err(Failure::Refused {
            left: tokens.len(),
            expected,
        });
    };
    *tokens = rest;
    Ok(found)
}

/// The characters of a string literal.
#[tactic(auto, unfolding(crate::specs::Parsing::quoted_at, ilasm_tokens::specs::Steps::choice))]
pub fn quoted_text(alloc: Global, tokens: &mut Tokens<'_>) -> Result<Text, Failure>
    ensures { Gives (λ x. (x, tokens.new.now)) result (quoted_at tokens.old.now) }
{
    let [first, rest @ ..] = *tokens else {
        return Err(Failure::Refused {
            left: 0,
            expected: Expected::StringLiteral,
        });
    };
    let Some(found) = first.quoted_text(alloc)? else {
        return Err(Failure::Refused {
            left: tokens.len(),
            expected: Expected::StringLiteral,
        });
    };
    *tokens = rest;
    Ok(found)
}
