//! Methods.

ghost use Rattle.std.specs.Prelude.{◌≡◌};
ghost use Rattle.ilasm_tokens.specs.Steps.{Gives};
ghost use Rattle.ilasm_reader.specs.Parsing.{body_at, code_body_at, constructor_head_at, constructor_words_at, first_words_at, head_at, kind_with, managed_body_at, method_at, method_words_at, named_head_at, signature_at, virtual_words_at};

use crate::code::code;
use crate::lists::parentheses;
use crate::single::{empty_block, expect_word, expect_word_of, expect_words, name, take_word};
use crate::types::{Parameter, return_type};
use cil_model::instructions::MethodName;
use cil_model::trees::{Code, Method, MethodKind};
use cil_model::types::{DeclaredType, Signature};
use ilasm_tokens::expected::Expected;
use ilasm_tokens::failure::Failure;
use ilasm_tokens::source_tokens::Tokens;
use std::alloc::Global;

/// What the words before a method's return type say of it.
#[derive(Clone, Copy)]
pub enum HeadKind {
    Static,
    Instance,
    Virtual { is_new_slot: bool },
    Abstract { is_new_slot: bool },
    Constructor,
}

/// What is written before `virtual`, after these words.
fn virtual_after(is_new_slot: bool, is_abstract: bool) -> Expected {
    match (is_new_slot, is_abstract) {
        (false, false) => Expected::MethodKind,
        (true, false) => Expected::VirtualWords,
        (_, true) => Expected::Word(b"virtual"),
    }
}

/// The words of a virtual method or of an abstract one.
#[tactic(auto, unfolding(crate::specs::Parsing::virtual_words_at, ilasm_tokens::specs::Steps::bind))]
fn virtual_words(tokens: &mut Tokens<'_>) -> Result<HeadKind, Failure>
    ensures { Gives (λ x. (x, tokens.new.now)) result (virtual_words_at tokens.old.now) }
{
    let is_new_slot = take_word(tokens, b"newslot");
    let is_abstract = take_word(tokens, b"abstract");
    expect_word_of(tokens, b"virtual", virtual_after(is_new_slot, is_abstract))?;
    expect_word(tokens, b"instance")?;
    Ok(if is_abstract {
        HeadKind::Abstract { is_new_slot }
    } else {
        HeadKind::Virtual { is_new_slot }
    })
}

/// Takes the words of a constructor, after the first.
#[tactic(auto, unfolding(crate::specs::Parsing::constructor_words_at, crate::specs::Parsing::words_at, ilasm_tokens::specs::Steps::bind))]
fn constructor_words(tokens: &mut Tokens<'_>) -> Result<(), Failure>
    ensures { Gives (λ _. tokens.new.now) result (constructor_words_at tokens.old.now) }
{
    expect_words(tokens, &[b"rtspecialname", b"instance"])
}

/// The words before a method's return type.
#[tactic(auto, unfolding(crate::specs::Parsing::first_words_at, ilasm_tokens::specs::Steps::bind, ilasm_tokens::specs::Steps::choice))]
fn first_words(tokens: &mut Tokens<'_>) -> Result<HeadKind, Failure>
    ensures { Gives (λ x. (x, tokens.new.now)) result (first_words_at tokens.old.now) }
{
    if take_word(tokens, b"static") {
        return Ok(HeadKind::Static);
    }
    if take_word(tokens, b"instance") {
        return Ok(HeadKind::Instance);
    }
    if take_word(tokens, b"specialname") {
        constructor_words(tokens)?;
        return Ok(HeadKind::Constructor);
    }
    virtual_words(tokens)
}

/// All words before a method's return type. Where no method begins, the grammar has what is given as `expected`.
#[tactic(auto, unfolding(crate::specs::Parsing::method_words_at, ilasm_tokens::specs::Steps::bind))]
fn method_words(tokens: &mut Tokens<'_>, expected: Expected) -> Result<HeadKind, Failure>
    ensures { Gives (λ x. (x, tokens.new.now)) result (method_words_at tokens.old.now) }
{
    expect_word_of(tokens, b".method", expected)?;
    expect_word(tokens, b"public")?;
    take_word(tokens, b"hidebysig");
    first_words(tokens)
}

/// The return type and the name of a constructor.
#[tactic(auto, unfolding(crate::specs::Parsing::constructor_head_at, crate::specs::Parsing::words_at, ilasm_tokens::specs::Steps::bind))]
fn constructor_head(tokens: &mut Tokens<'_>) -> Result<(Option<DeclaredType>, MethodName), Failure>
    ensures { Gives (λ x. (x, tokens.new.now)) result (constructor_head_at tokens.old.now) }
{
    expect_words(tokens, &[b"void", b".ctor"])?;
    Ok((None, MethodName::Constructor))
}

/// The return type and the name of a method that is no constructor.
#[tactic(auto, unfolding(crate::specs::Parsing::named_head_at, ilasm_tokens::specs::Steps::bind))]
fn named_head(
    alloc: Global,
    tokens: &mut Tokens<'_>,
) -> Result<(Option<DeclaredType>, MethodName), Failure>
    ensures { Gives (λ x. (x, tokens.new.now)) result (named_head_at tokens.old.now) }
{
    let return_type = return_type(alloc, tokens, Expected::ReturnType)?;
    let name = name(alloc, tokens, Expected::Name)?;
    Ok((return_type, MethodName::Named(name)))
}

/// The return type and the name.
#[tactic(auto, unfolding(crate::specs::Parsing::head_at))]
fn head(
    alloc: Global,
    head_kind: HeadKind,
    tokens: &mut Tokens<'_>,
) -> Result<(Option<DeclaredType>, MethodName), Failure>
    ensures { Gives (λ x. (x, tokens.new.now)) result (head_at head_kind tokens.old.now) }
{
    match head_kind {
        HeadKind::Constructor => constructor_head(tokens),
        _ => named_head(alloc, tokens),
    }
}

/// The name, the return type and the parameters.
#[tactic(auto, unfolding(crate::specs::Parsing::signature_at, ilasm_tokens::specs::Steps::bind))]
fn signature(
    alloc: Global,
    head_kind: HeadKind,
    tokens: &mut Tokens<'_>,
) -> Result<(MethodName, Signature), Failure>
    ensures { Gives (λ x. (x, tokens.new.now)) result (signature_at head_kind tokens.old.now) }
{
    let (return_type, name) = head(alloc, head_kind, tokens)?;
    let parameters = parentheses::<Parameter>(alloc, tokens)?;
    let signature = Signature {
        parameters,
        return_type,
    };
    Ok((name, signature))
}

/// The kind of a method that has code.
fn kind_with(head_kind: HeadKind, code: Code) -> MethodKind
    ensures { result ≡ kind_with head_kind code }
{
    match head_kind {
        HeadKind::Static => MethodKind::Static(code),
        HeadKind::Virtual { is_new_slot } => MethodKind::Virtual { is_new_slot, code },
        _ => MethodKind::Instance(code),
    }
}

/// The kind of a method that has code, with the code that follows here.
#[tactic(auto, unfolding(crate::specs::Parsing::code_body_at, ilasm_tokens::specs::Steps::bind))]
fn code_body(
    alloc: Global,
    head_kind: HeadKind,
    tokens: &mut Tokens<'_>,
) -> Result<MethodKind, Failure>
    ensures { Gives (λ x. (x, tokens.new.now)) result (code_body_at head_kind tokens.old.now) }
{
    let code = code(alloc, tokens)?;
    Ok(kind_with(head_kind, code))
}

/// The kind, with the code that follows here; an abstract method has an empty block.
#[tactic(auto, unfolding(crate::specs::Parsing::body_at, ilasm_tokens::specs::Steps::bind))]
fn body(alloc: Global, head_kind: HeadKind, tokens: &mut Tokens<'_>) -> Result<MethodKind, Failure>
    ensures { Gives (λ x. (x, tokens.new.now)) result (body_at head_kind tokens.old.now) }
{
    let HeadKind::Abstract { is_new_slot } = head_kind else {
        return code_body(alloc, head_kind, tokens);
    };
    empty_block(tokens)?;
    Ok(MethodKind::Abstract { is_new_slot })
}

/// The kind, after the words before a body.
#[tactic(auto, unfolding(crate::specs::Parsing::managed_body_at, ilasm_tokens::specs::Steps::bind))]
fn managed_body(
    alloc: Global,
    head_kind: HeadKind,
    tokens: &mut Tokens<'_>,
) -> Result<MethodKind, Failure>
    ensures { Gives (λ x. (x, tokens.new.now)) result (managed_body_at head_kind tokens.old.now) }
{
    expect_word_of(tokens, b"cil", Expected::CilManaged)?;
    expect_word(tokens, b"managed")?;
    body(alloc, head_kind, tokens)
}

/// A method. Where none begins, the grammar has what is given as `expected`.
#[tactic(auto, unfolding(crate::specs::Parsing::method_at, ilasm_tokens::specs::Steps::bind))]
pub fn method(alloc: Global, tokens: &mut Tokens<'_>, expected: Expected) -> Result<Method, Failure>
    ensures { Gives (λ x. (x, tokens.new.now)) result (method_at tokens.old.now) }
{
    let head_kind = method_words(tokens, expected)?;
    let (name, signature) = signature(alloc, head_kind, tokens)?;
    let kind = managed_body(alloc, head_kind, tokens)?;
    Ok(Method {
        name,
        signature,
        kind,
    })
}
