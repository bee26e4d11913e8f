//! The code of methods.

ghost use Rattle.std.specs.Prelude.{◌≤◌, length};
ghost use Rattle.ilasm_tokens.specs.Steps.{Gives};
ghost use Rattle.ilasm_reader.specs.Parsing.{code_at, code_start_at, in_block, label_at, line_at, lines_at, locals_at, max_stack_at, some_locals_at, starts_label};

use crate::instructions::instruction;
use crate::lists::{Parse, Starts, closed_commas, in_block, many};
use crate::single::{
    expect_symbol, expect_symbol_of, expect_word, expect_word_of, integer, name, take_name,
    take_word,
};
use crate::types::Parameter;
use cil_model::sequences::Sequence;
use cil_model::texts::Text;
use cil_model::tokens::Symbol;
use cil_model::trees::{Code, Line};
use cil_model::types::DeclaredType;
use ilasm_tokens::expected::Expected;
use ilasm_tokens::failure::Failure;
use ilasm_tokens::source_tokens::Tokens;
use std::alloc::Global;

/// A label before an instruction.
pub struct Label;

impl Parse for Label {
    ghost use Rattle.ilasm_reader.specs.Sound.{label_sound};

    type Tree = Text;

    ghost parsed_at = { label_at };

    #[tactic(auto, unfolding(crate::specs::Parsing::label_at, crate::specs::Parsing::before_sign_at, ilasm_tokens::specs::Steps::bind))]
    fn parse(alloc: Global, tokens: &mut Tokens<'_>) -> Result<Text, Failure> {
        let name = name(alloc, tokens, Expected::LabelName)?;
        expect_symbol_of(tokens, Symbol::Colon, Expected::LabelColon)?;
        Ok(name)
    }

    ghost consumes = { λ ts x rest e. ((label_sound ts).out (x, rest) e).1 };
}

impl Starts for Label {
    ghost starts_at = { starts_label };

    #[tactic(auto, unfolding(crate::specs::Parsing::starts_label))]
    fn starts(tokens: Tokens<'_>) -> bool {
        let mut ahead = tokens;
        take_name(&mut ahead)
    }
}

/// What is expected where a line continues after this number of labels.
fn line_after(labels: usize) -> Expected {
    if labels == 0 {
        Expected::Line
    } else {
        Expected::LabelledLine
    }
}

/// An instruction with its labels.
pub struct CodeLine;

impl Parse for CodeLine {
    ghost use Rattle.ilasm_reader.specs.Sound.{line_sound};

    type Tree = Line;

    ghost parsed_at = { line_at };

    #[tactic(auto, unfolding(crate::specs::Parsing::line_at, ilasm_tokens::specs::Steps::bind))]
    fn parse(alloc: Global, tokens: &mut Tokens<'_>) -> Result<Line, Failure> {
        let labels = many::<Label>(alloc, tokens, 1)?;
        let expected = line_after(labels.as_slice().len());
        let instruction = instruction(alloc, tokens, expected)?;
        Ok(Line {
            labels,
            instruction,
        })
    }

    ghost consumes = { λ ts x rest e. ((line_sound ts).out (x, rest) e).1 };
}

impl Starts for CodeLine {
    ghost starts_at = { in_block };

    fn starts(tokens: Tokens<'_>) -> bool {
        in_block(tokens)
    }
}

/// The types of the locals, after `.locals`.
#[tactic(auto, unfolding(crate::specs::Parsing::some_locals_at, ilasm_tokens::specs::Steps::bind))]
fn some_locals(alloc: Global, tokens: &mut Tokens<'_>) -> Result<Sequence<DeclaredType>, Failure>
    ensures { Gives (λ x. (x, tokens.new.now)) result (some_locals_at tokens.old.now) }
{
    expect_word(tokens, b"init")?;
    expect_symbol(tokens, Symbol::OpenParenthesis)?;
    closed_commas::<Parameter>(alloc, tokens)
}

/// The types of the locals; none where they are left out.
#[tactic(auto, unfolding(crate::specs::Parsing::locals_at, ilasm_tokens::specs::Steps::choice))]
fn locals(alloc: Global, tokens: &mut Tokens<'_>) -> Result<Sequence<DeclaredType>, Failure>
    ensures { Gives (λ x. (x, tokens.new.now)) result (locals_at tokens.old.now) }
{
    if take_word(tokens, b".locals") {
        some_locals(alloc, tokens)
    } else {
        Ok(Sequence::new(Vec::new(alloc)))
    }
}

/// What is expected where the code of a method begins, after `.entrypoint` or without it.
fn start_of_code(is_entry_point: bool) -> Expected {
    if is_entry_point {
        Expected::Word(b".maxstack")
    } else {
        Expected::CodeStart
    }
}

/// How high the stack may be, after `.entrypoint` or without it.
#[tactic(auto, unfolding(crate::specs::Parsing::max_stack_at, ilasm_tokens::specs::Steps::bind))]
fn max_stack(tokens: &mut Tokens<'_>, is_entry_point: bool) -> Result<i64, Failure>
    ensures { Gives (λ x. (x, tokens.new.now)) result (max_stack_at tokens.old.now) }
{
    expect_word_of(tokens, b".maxstack", start_of_code(is_entry_point))?;
    integer(tokens, Expected::Integer)
}

/// How many reserved words there are before the end of a block. There are no more lines than that, since each has the name of an instruction.
fn words_ahead(tokens: Tokens<'_>) -> usize
    ensures { result ≤ length tokens.now }
{
    tokens
        .iter()
        .take_while(|token| !matches!(token.symbol(), Some(Symbol::CloseBrace)))
        .filter(|token| token.reserved_word().is_some())
        .count()
}

/// Takes the opening brace, and gives whether the method is the entry point and how high the stack may be.
#[tactic(auto, unfolding(crate::specs::Parsing::code_start_at, ilasm_tokens::specs::Steps::bind))]
fn code_start(tokens: &mut Tokens<'_>) -> Result<(bool, i64), Failure>
    ensures { Gives (λ x. ((x.0, x.1), tokens.new.now)) result (code_start_at tokens.old.now) }
{
    expect_symbol(tokens, Symbol::OpenBrace)?;
    let is_entry_point = take_word(tokens, b".entrypoint");
    let max_stack = max_stack(tokens, is_entry_point)?;
    Ok((is_entry_point, max_stack))
}

/// The lines of a method, to the closing brace.
#[tactic(auto, unfolding(crate::specs::Parsing::lines_at, crate::specs::Parsing::before_sign_at, ilasm_tokens::specs::Steps::bind))]
fn lines(alloc: Global, tokens: &mut Tokens<'_>) -> Result<Sequence<Line>, Failure>
    ensures { Gives (λ x. (x, tokens.new.now)) result (lines_at tokens.old.now) }
{
    let expected = words_ahead(*tokens);
    let lines = many::<CodeLine>(alloc, tokens, expected)?;
    expect_symbol_of(tokens, Symbol::CloseBrace, Expected::Line)?;
    Ok(lines)
}

/// The code of a method, in braces.
#[tactic(auto, unfolding(crate::specs::Parsing::code_at, ilasm_tokens::specs::Steps::bind))]
pub fn code(alloc: Global, tokens: &mut Tokens<'_>) -> Result<Code, Failure>
    ensures { Gives (λ x. (x, tokens.new.now)) result (code_at tokens.old.now) }
{
    let (is_entry_point, max_stack) = code_start(tokens)?;
    let locals = locals(alloc, tokens)?;
    let lines = lines(alloc, tokens)?;
    Ok(Code {
        is_entry_point,
        max_stack,
        locals,
        lines,
    })
}
