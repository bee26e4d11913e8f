//! Types and names of classes.

ghost use Rattle.std.specs.Prelude.{Some};
ghost use Rattle.ilasm_tokens.specs.Steps.{Gives};
ghost use Rattle.ilasm_reader.specs.Parsing.{Takes, all_brackets_at, assembly_name_at, brackets_at, class_name_at, class_of_assembly_at, element_at, name_at, parameter_at, return_type_at, type_at};

use crate::lists::Parse;
use crate::single::{expect_symbol, expect_word_of, name, take_name, take_symbol, take_word};
use cil_model::texts::Text;
use cil_model::tokens::Symbol;
use cil_model::types::{ClassName, DeclaredType, Element};
use ilasm_tokens::expected::Expected;
use ilasm_tokens::failure::Failure;
use ilasm_tokens::source_tokens::Tokens;
use std::alloc::Global;

/// The name of an assembly, after an opening bracket.
struct AssemblyName;

impl Parse for AssemblyName {
    ghost use Rattle.ilasm_reader.specs.Sound.{assembly_name_sound};

    type Tree = Text;

    ghost parsed_at = { assembly_name_at };

    #[tactic(auto, unfolding(crate::specs::Parsing::assembly_name_at, crate::specs::Parsing::before_sign_at, ilasm_tokens::specs::Steps::bind))]
    fn parse(alloc: Global, tokens: &mut Tokens<'_>) -> Result<Text, Failure> {
        let name = name(alloc, tokens, Expected::Name)?;
        expect_symbol(tokens, Symbol::CloseBracket)?;
        Ok(name)
    }

    ghost consumes = { λ ts x rest e. ((assembly_name_sound ts).out (x, rest) e).1 };
}

/// The name of a class, without its assembly.
struct OwnName;

impl Parse for OwnName {
    ghost use Rattle.ilasm_reader.specs.Sound.{name_sound};

    type Tree = Text;

    ghost parsed_at = { name_at };

    fn parse(alloc: Global, tokens: &mut Tokens<'_>) -> Result<Text, Failure> {
        name(alloc, tokens, Expected::ClassName)
    }

    ghost consumes = { λ ts x rest e. ((name_sound ts).out (x, rest) e).1 };
}

/// The name of what is declared.
pub struct PlainName;

impl Parse for PlainName {
    ghost use Rattle.ilasm_reader.specs.Sound.{name_sound};

    type Tree = Text;

    ghost parsed_at = { name_at };

    fn parse(alloc: Global, tokens: &mut Tokens<'_>) -> Result<Text, Failure> {
        name(alloc, tokens, Expected::Name)
    }

    ghost consumes = { λ ts x rest e. ((name_sound ts).out (x, rest) e).1 };
}

/// A class after an opening bracket: the name of its assembly, and its own.
#[tactic(auto, unfolding(crate::specs::Parsing::class_of_assembly_at, ilasm_tokens::specs::Steps::bind))]
fn class_of_assembly(alloc: Global, tokens: &mut Tokens<'_>) -> Result<ClassName, Failure>
    ensures { Gives (λ x. (x, tokens.new.now)) result (class_of_assembly_at tokens.old.now) }
{
    let (assembly, name) = <(AssemblyName, OwnName)>::parse(alloc, tokens)?;
    let assembly = Some(assembly);
    Ok(ClassName { assembly, name })
}

/// A class by its name, perhaps after the name of an assembly in brackets.
pub struct ClassReference;

impl Parse for ClassReference {
    ghost use Rattle.ilasm_reader.specs.Sound.{class_name_sound};

    type Tree = ClassName;

    ghost parsed_at = { class_name_at };

    #[tactic(auto, unfolding(crate::specs::Parsing::class_name_at, ilasm_tokens::specs::Steps::bind, ilasm_tokens::specs::Steps::choice))]
    fn parse(alloc: Global, tokens: &mut Tokens<'_>) -> Result<ClassName, Failure> {
        if take_symbol(tokens, Symbol::OpenBracket) {
            return class_of_assembly(alloc, tokens);
        }
        let name = name(alloc, tokens, Expected::ClassName)?;
        let assembly = None;
        Ok(ClassName { assembly, name })
    }

    ghost consumes = { λ ts x rest e. ((class_name_sound ts).out (x, rest) e).1 };
}

/// The element of a type, without its brackets. Where there is none, the refusal says what was expected.
#[tactic(auto, unfolding(crate::specs::Parsing::element_at, ilasm_tokens::specs::Steps::bind, ilasm_tokens::specs::Steps::choice))]
fn element(alloc: Global, tokens: &mut Tokens<'_>, expected: Expected) -> Result<Element, Failure>
    ensures { Gives (λ x. (x, tokens.new.now)) result (element_at tokens.old.now) }
{
    if take_word(tokens, b"int32") {
        return Ok(Element::Int32);
    }
    if take_word(tokens, b"int64") {
        return Ok(Element::Int64);
    }
    if take_word(tokens, b"object") {
        return Ok(Element::Object);
    }
    if take_word(tokens, b"string") {
        return Ok(Element::String);
    }
    expect_word_of(tokens, b"class", expected)?;
    Ok(Element::Class(ClassReference::parse(alloc, tokens)?))
}

/// Takes a pair of brackets with nothing between, if it is here, and returns whether it is.
#[tactic(auto, unfolding(crate::specs::Parsing::brackets_at, ilasm_tokens::specs::Steps::bind))]
fn take_brackets(tokens: &mut Tokens<'_>) -> bool
    ensures { Takes result tokens.old.now tokens.new.now (brackets_at tokens.old.now) }
{
    let mut ahead = *tokens;
    if take_symbol(&mut ahead, Symbol::OpenBracket)
        && take_symbol(&mut ahead, Symbol::CloseBracket)
    {
        *tokens = ahead;
        return true;
    }
    false
}

/// Takes all pairs of brackets that follow, and returns their number. It fails as if out of memory at the pair 2^32, which no source of
/// 1,048,576 bytes has.
fn take_all_brackets(tokens: &mut Tokens<'_>) -> Result<u32, Failure>
    ensures { Gives (λ count. (count, tokens.new.now)) result (Some (all_brackets_at tokens.old.now)) }
{
    let mut count: u32 = 0;
    while take_brackets(tokens) {
        let Some(next) = count.checked_add(1) else {
            return Err(Failure::OutOfMemory);
        };
        count = next;
    }
    Ok(count)
}

/// A type. Where there is none, the grammar has what is given as `expected`.
#[tactic(auto, unfolding(crate::specs::Parsing::type_at, ilasm_tokens::specs::Steps::bind))]
fn declared_type(
    alloc: Global,
    tokens: &mut Tokens<'_>,
    expected: Expected,
) -> Result<DeclaredType, Failure>
    ensures { Gives (λ x. (x, tokens.new.now)) result (type_at tokens.old.now) }
{
    let element = element(alloc, tokens, expected)?;
    let brackets = take_all_brackets(tokens)?;
    Ok(DeclaredType { element, brackets })
}

/// A type.
pub struct AnyType;

impl Parse for AnyType {
    ghost use Rattle.ilasm_reader.specs.Sound.{type_sound};

    type Tree = DeclaredType;

    ghost parsed_at = { type_at };

    fn parse(alloc: Global, tokens: &mut Tokens<'_>) -> Result<DeclaredType, Failure> {
        declared_type(alloc, tokens, Expected::Type)
    }

    ghost consumes = { λ ts x rest e. ((type_sound ts).out (x, rest) e).1 };
}

/// A type, and perhaps a name, which the tree does not keep.
pub struct Parameter;

impl Parse for Parameter {
    ghost use Rattle.ilasm_reader.specs.Sound.{parameter_sound};

    type Tree = DeclaredType;

    ghost parsed_at = { parameter_at };

    #[tactic(auto, unfolding(crate::specs::Parsing::parameter_at, crate::specs::Parsing::name_at, ilasm_tokens::specs::Steps::bind, ilasm_tokens::specs::Steps::choice))]
    fn parse(alloc: Global, tokens: &mut Tokens<'_>) -> Result<DeclaredType, Failure> {
        let its_type = AnyType::parse(alloc, tokens)?;
        take_name(tokens);
        Ok(its_type)
    }

    ghost consumes = { λ ts x rest e. ((parameter_sound ts).out (x, rest) e).1 };
}

/// A type, or `void`. Where there is neither, the grammar has what is given as `expected`.
#[tactic(auto, unfolding(crate::specs::Parsing::return_type_at, ilasm_tokens::specs::Steps::bind, ilasm_tokens::specs::Steps::choice))]
pub fn return_type(
    alloc: Global,
    tokens: &mut Tokens<'_>,
    expected: Expected,
) -> Result<Option<DeclaredType>, Failure>
    ensures { Gives (λ x. (x, tokens.new.now)) result (return_type_at tokens.old.now) }
{
    if take_word(tokens, b"void") {
        return Ok(None);
    }
    Ok(Some(declared_type(alloc, tokens, expected)?))
}
