//! Lists of parts.

ghost use Rattle.std.specs.Prelude.{◌≡◌, ◌≤◌, List, Bool, true, length};
ghost use Rattle.ilasm_tokens.specs.Steps.{Gives, Consumes, many};
ghost use Rattle.ilasm_reader.specs.Parsing.{Parser, starts_comma, after_comma, commas_at, closed_commas_at, parentheses_at, in_block};

use crate::single::{expect_symbol, expect_symbol_of, starts_symbol, take_symbol};
use cil_model::sequences::Sequence;
use cil_model::tokens::Symbol;
use ilasm_tokens::expected::Expected;
use ilasm_tokens::failure::Failure;
use ilasm_tokens::source_tokens::Tokens;
use std::alloc::Global;

/// A part of the grammar that is written in lists.
pub trait Parse {
    ghost use Rattle.cil_model.specs.declared.tokens.Token.{Token};

    /// What the tree keeps of it.
    type Tree: Drop;

    ghost parsed_at: { Parser Self.Tree };

    /// Takes the part that the tokens begin with, and gives what the tree keeps of it.
    fn parse(alloc: Global, tokens: &mut Tokens<'_>) -> Result<Self::Tree, Failure>
        ensures { Gives (λ x. (x, tokens.new.now)) result (parsed_at tokens.old.now) };

    // Something is taken.
    ghost consumes: { Consumes parsed_at };
}

/// One part after another.
impl<P: Parse, Q: Parse> Parse for (P, Q) {
    ghost use Rattle.ilasm_reader.specs.Parsing.{pair_at};
    ghost use Rattle.ilasm_reader.specs.Sound.{pair_consumes};

    type Tree = (P::Tree, Q::Tree);

    ghost parsed_at = { pair_at P.parsed_at Q.parsed_at };

    #[tactic(auto, unfolding(crate::specs::Parsing::pair_at, ilasm_tokens::specs::Steps::bind))]
    fn parse(alloc: Global, tokens: &mut Tokens<'_>) -> Result<Self::Tree, Failure> {
        let first = P::parse(alloc, tokens)?;
        let second = Q::parse(alloc, tokens)?;
        Ok((first, second))
    }

    ghost consumes = { pair_consumes P.consumes Q.consumes };
}

/// A part that is written in a list without commas.
pub trait Starts: Parse {
    ghost use Rattle.cil_model.specs.declared.tokens.Token.{Token};

    ghost starts_at: { List Token → Bool };

    /// Whether one more follows here.
    fn starts(tokens: Tokens<'_>) -> bool
        ensures { result ≡ starts_at tokens.now };
}

/// All that follow here, one after the other, of which the first starts here. Memory for `expected` is taken at once.
fn some<P: Starts>(
    alloc: Global,
    tokens: &mut Tokens<'_>,
    expected: usize,
) -> Result<Sequence<P::Tree>, Failure>
    requires { P.starts_at tokens.old.now ≡ true }
    ensures { Gives (λ x. (x, tokens.new.now)) result (many P.starts_at P.parsed_at tokens.old.now) }
{
    let first = P::parse(alloc, tokens)?;
    let mut items = Vec::with_capacity(alloc, expected)?;
    items.push(first)?;
    while P::starts(*tokens) {
        let item = P::parse(alloc, tokens)?;
        items.push(item)?;
    }
    Ok(Sequence::new(items))
}

/// All that follow here, one after the other. If there are some, memory for `expected` is taken at once.
pub fn many<P: Starts>(
    alloc: Global,
    tokens: &mut Tokens<'_>,
    expected: usize,
) -> Result<Sequence<P::Tree>, Failure>
    ensures { Gives (λ x. (x, tokens.new.now)) result (many P.starts_at P.parsed_at tokens.old.now) }
{
    if P::starts(*tokens) {
        some::<P>(alloc, tokens, expected)
    } else {
        Ok(Sequence::new(Vec::new(alloc)))
    }
}

#[tactic(auto, unfolding(crate::specs::Parsing::starts_comma))]
fn starts_comma(tokens: Tokens<'_>) -> bool
    ensures { result ≡ starts_comma tokens.now }
{
    starts_symbol(tokens, Symbol::Comma)
}

/// The part after a comma.
#[tactic(auto, unfolding(crate::specs::Parsing::after_comma, ilasm_tokens::specs::Steps::bind))]
fn after_comma<P: Parse>(alloc: Global, tokens: &mut Tokens<'_>) -> Result<P::Tree, Failure>
    ensures { Gives (λ x. (x, tokens.new.now)) result (after_comma P.parsed_at tokens.old.now) }
{
    expect_symbol(tokens, Symbol::Comma)?;
    P::parse(alloc, tokens)
}

/// How many commas there are before the end of a list, which is a parenthesis or a brace.
fn commas_ahead(tokens: Tokens<'_>) -> usize
    ensures { result ≤ length tokens.now }
{
    tokens
        .iter()
        .take_while(|token| {
            !matches!(
                token.symbol(),
                Some(Symbol::CloseParenthesis | Symbol::OpenBrace | Symbol::CloseBrace)
            )
        })
        .filter(|token| matches!(token.symbol(), Some(Symbol::Comma)))
        .count()
}

/// One or more, with commas between.
#[tactic(auto, unfolding(crate::specs::Parsing::commas_at, ilasm_tokens::specs::Steps::bind))]
pub fn commas<P: Parse>(
    alloc: Global,
    tokens: &mut Tokens<'_>,
) -> Result<Sequence<P::Tree>, Failure>
    ensures { Gives (λ x. (x, tokens.new.now)) result (commas_at P.parsed_at tokens.old.now) }
{
    let first = P::parse(alloc, tokens)?;
    let mut items = Vec::with_capacity(alloc, commas_ahead(*tokens).saturating_add(1))?;
    items.push(first)?;
    while starts_comma(*tokens) {
        let item = after_comma::<P>(alloc, tokens)?;
        items.push(item)?;
    }
    Ok(Sequence::new(items))
}

/// One or more after an opening parenthesis, with commas between, to the closing one.
#[tactic(auto, unfolding(crate::specs::Parsing::closed_commas_at, crate::specs::Parsing::before_sign_at, ilasm_tokens::specs::Steps::bind))]
pub fn closed_commas<P: Parse>(
    alloc: Global,
    tokens: &mut Tokens<'_>,
) -> Result<Sequence<P::Tree>, Failure>
    ensures { Gives (λ x. (x, tokens.new.now)) result (closed_commas_at P.parsed_at tokens.old.now) }
{
    let items = commas::<P>(alloc, tokens)?;
    let end = Symbol::CloseParenthesis;
    expect_symbol_of(tokens, end, Expected::ListEnd(end))?;
    Ok(items)
}

/// Any number in parentheses, with commas between.
#[tactic(auto, unfolding(crate::specs::Parsing::parentheses_at, ilasm_tokens::specs::Steps::bind, ilasm_tokens::specs::Steps::choice))]
pub fn parentheses<P: Parse>(
    alloc: Global,
    tokens: &mut Tokens<'_>,
) -> Result<Sequence<P::Tree>, Failure>
    ensures { Gives (λ x. (x, tokens.new.now)) result (parentheses_at P.parsed_at tokens.old.now) }
{
    expect_symbol(tokens, Symbol::OpenParenthesis)?;
    if take_symbol(tokens, Symbol::CloseParenthesis) {
        return Ok(Sequence::new(Vec::new(alloc)));
    }
    closed_commas::<P>(alloc, tokens)
}

/// Whether a block continues: its end is neither here nor missing.
#[tactic(auto, unfolding(crate::specs::Parsing::in_block))]
pub fn in_block(tokens: Tokens<'_>) -> bool
    ensures { result ≡ in_block tokens.now }
{
    !tokens.is_empty() && !starts_symbol(tokens, Symbol::CloseBrace)
}
