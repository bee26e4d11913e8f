//! Fields, methods and labels that instructions name.

ghost use Rattle.ilasm_tokens.specs.Steps.{Gives};
ghost use Rattle.ilasm_reader.specs.Parsing.{field_of_owner_at, field_reference_at, instance_method_at, method_name_at, method_of_owner_at, method_reference_at, name_at, parentheses_at, type_at};

use crate::lists::{Parse, parentheses};
use crate::single::{expect_symbol, expect_word, name, take_word};
use crate::types::{AnyType, ClassReference, return_type};
use cil_model::instructions::{FieldReference, MethodName, MethodReference};
use cil_model::sequences::Sequence;
use cil_model::texts::Text;
use cil_model::tokens::Symbol;
use cil_model::types::{DeclaredType, Signature};
use ilasm_tokens::expected::Expected;
use ilasm_tokens::failure::Failure;
use ilasm_tokens::source_tokens::Tokens;
use std::alloc::Global;

/// A label that an instruction branches to.
pub struct Target;

impl Parse for Target {
    ghost use Rattle.ilasm_reader.specs.Sound.{name_sound};

    type Tree = Text;

    ghost parsed_at = { name_at };

    fn parse(alloc: Global, tokens: &mut Tokens<'_>) -> Result<Text, Failure> {
        name(alloc, tokens, Expected::LabelName)
    }

    ghost consumes = { λ ts x rest e. ((name_sound ts).out (x, rest) e).1 };
}

/// The name of a field, after `::`.
struct FieldOfOwner;

impl Parse for FieldOfOwner {
    ghost use Rattle.ilasm_reader.specs.Sound.{field_of_owner_sound};

    type Tree = Text;

    ghost parsed_at = { field_of_owner_at };

    #[tactic(auto, unfolding(crate::specs::Parsing::field_of_owner_at, ilasm_tokens::specs::Steps::bind))]
    fn parse(alloc: Global, tokens: &mut Tokens<'_>) -> Result<Text, Failure> {
        expect_symbol(tokens, Symbol::DoubleColon)?;
        name(alloc, tokens, Expected::MemberName)
    }

    ghost consumes = { λ ts x rest e. ((field_of_owner_sound ts).out (x, rest) e).1 };
}

/// `type owner::name`.
#[tactic(auto, unfolding(crate::specs::Parsing::field_reference_at, ilasm_tokens::specs::Steps::bind))]
pub fn field_reference(alloc: Global, tokens: &mut Tokens<'_>) -> Result<FieldReference, Failure>
    ensures { Gives (λ x. (x, tokens.new.now)) result (field_reference_at tokens.old.now) }
{
    let parts = <(AnyType, (ClassReference, FieldOfOwner))>::parse(alloc, tokens)?;
    let (field_type, (owner, name)) = parts;
    Ok(FieldReference {
        field_type,
        owner,
        name,
    })
}

/// A name, or `.ctor`.
#[tactic(auto, unfolding(crate::specs::Parsing::method_name_at, ilasm_tokens::specs::Steps::bind, ilasm_tokens::specs::Steps::choice))]
fn method_name(alloc: Global, tokens: &mut Tokens<'_>) -> Result<MethodName, Failure>
    ensures { Gives (λ x. (x, tokens.new.now)) result (method_name_at tokens.old.now) }
{
    if take_word(tokens, b".ctor") {
        return Ok(MethodName::Constructor);
    }
    let name = name(alloc, tokens, Expected::MemberName)?;
    Ok(MethodName::Named(name))
}

/// The name of a method, after `::`.
struct MethodOfOwner;

impl Parse for MethodOfOwner {
    ghost use Rattle.ilasm_reader.specs.Sound.{method_of_owner_sound};

    type Tree = MethodName;

    ghost parsed_at = { method_of_owner_at };

    #[tactic(auto, unfolding(crate::specs::Parsing::method_of_owner_at, ilasm_tokens::specs::Steps::bind))]
    fn parse(alloc: Global, tokens: &mut Tokens<'_>) -> Result<MethodName, Failure> {
        expect_symbol(tokens, Symbol::DoubleColon)?;
        method_name(alloc, tokens)
    }

    ghost consumes = { λ ts x rest e. ((method_of_owner_sound ts).out (x, rest) e).1 };
}

/// The types of the parameters of a method that is named, in parentheses.
struct ParameterTypes;

impl Parse for ParameterTypes {
    ghost use Rattle.ilasm_reader.specs.Sound.{parameter_types_sound};

    type Tree = Sequence<DeclaredType>;

    ghost parsed_at = { parentheses_at type_at };

    fn parse(alloc: Global, tokens: &mut Tokens<'_>) -> Result<Sequence<DeclaredType>, Failure> {
        parentheses::<AnyType>(alloc, tokens)
    }

    ghost consumes = { λ ts x rest e. ((parameter_types_sound ts).out (x, rest) e).1 };
}

/// `type owner::name(types)`, with a name or `.ctor`. Where there is no type, the grammar has what is given as `expected`.
#[tactic(auto, unfolding(crate::specs::Parsing::method_reference_at, ilasm_tokens::specs::Steps::bind))]
pub fn method_reference(
    alloc: Global,
    tokens: &mut Tokens<'_>,
    expected: Expected,
) -> Result<MethodReference, Failure>
    ensures { Gives (λ x. (x, tokens.new.now)) result (method_reference_at tokens.old.now) }
{
    let return_type = return_type(alloc, tokens, expected)?;
    let parts = <(ClassReference, (MethodOfOwner, ParameterTypes))>::parse(alloc, tokens)?;
    let (owner, (name, parameters)) = parts;
    let signature = Signature {
        parameters,
        return_type,
    };
    Ok(MethodReference {
        owner,
        name,
        signature,
    })
}

/// A method after the word `instance`.
#[tactic(auto, unfolding(crate::specs::Parsing::instance_method_at, ilasm_tokens::specs::Steps::bind))]
pub fn instance_method(alloc: Global, tokens: &mut Tokens<'_>) -> Result<MethodReference, Failure>
    ensures { Gives (λ x. (x, tokens.new.now)) result (instance_method_at tokens.old.now) }
{
    expect_word(tokens, b"instance")?;
    method_reference(alloc, tokens, Expected::ReturnType)
}
