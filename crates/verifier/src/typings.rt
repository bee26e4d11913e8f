//! A typing of each method.

ghost use Rattle.std.specs.Prelude.{◌≡◌, [], map, option_map, slice_get, Some};
ghost use Rattle.cil_model.specs.declared.trees.Code.{Code};
ghost use Rattle.cil_model.specs.declared.trees.Method.{Method};
ghost use Rattle.cil_model.specs.declared.types.ClassName.{ClassName};
ghost use Rattle.cil_model.specs.Bodies.{code_of, source_methods};
ghost use Rattle.name_tables.specs.Numbers.{method_at};
ghost use Rattle.resolved_code.specs.ById.{class_name};
ghost use Rattle.resolved_code.specs.ResolvedPrograms.{IsBody, IsResolvedMethod};
ghost use Rattle.verifier.specs.Members.{methods_at};
ghost use Rattle.verifier.specs.Verdicts.{AreVerdicts, IsMethodVerdict};

use crate::arguments::arguments_of;
use crate::failures::TypingError;
use crate::kept_stacks::KeptStack;
use crate::members::source_members;
use crate::refusals::{VerifyError, refusal_in};
use crate::search::find_typing;
use cil_model::sequences::Sequence;
use flow_rules::type_tree::TypeTree;
use name_tables::ids::{ClassId, MethodId};
use resolved_code::Program;
use resolved_code::classes::{Body, ResolvedMethod, body_of};
use std::alloc::Global;

/// The stacks before the instructions of a method, the top of each first; none where control never reaches an instruction.
pub type Typing = Sequence<Option<KeptStack>>;

/// The typing of a method without code.
fn empty_typing(alloc: Global) -> Typing
    ensures { result ≡ [] }
{
    Sequence::new(Vec::new(alloc))
}

/// The typing of a method's code.
fn typing_of_body(
    alloc: Global,
    types: &TypeTree,
    program: &Program,
    class: ClassId,
    method: &ResolvedMethod,
    body: &Body,
) -> Result<Typing, TypingError>
    requires { types.now ≡ program.now }
    ensures { (owner : ClassName) (m : Method) (code : Code) → class_name program.now class ≡ Some owner → IsResolvedMethod program.now m method.now → code_of m.kind ≡ Some code → IsBody program.now code body.now → IsMethodVerdict program.now owner m result }
{
    let Ok(arguments) = arguments_of(alloc, class, method) else {
        return Err(TypingError::OutOfMemory);
    };
    find_typing(types, arguments.as_slice(), method.return_type, body, alloc)
}

/// The typing of the method of an id.
#[tactic(auto, using(crate::proofs::MethodLaws::owner_named, crate::proofs::MethodLaws::not_absent, crate::proofs::MethodLaws::is_resolved, crate::proofs::MethodLaws::empty_verdict, crate::proofs::MethodLaws::code_there))]
fn typing_of(
    alloc: Global,
    types: &TypeTree,
    program: &Program,
    member: MethodId,
) -> Result<Typing, TypingError>
    requires { types.now ≡ program.now }
    ensures { (owner : ClassName) (m : Method) → method_at program.now (member.class, member.index) ≡ Some (owner, m) → IsMethodVerdict program.now owner m result }
{
    let class = member.class;
    let Some(method) = program.method(member) else {
        return Ok(empty_typing(alloc));
    };
    match body_of(&method.kind) {
        None => Ok(empty_typing(alloc)),
        Some(body) => typing_of_body(alloc, types, program, class, method, body),
    }
}

/// A typing of each method of these ids, by the program's tree of types.
fn typings_by(
    alloc: Global,
    types: &TypeTree,
    program: &Program,
    members: &[MethodId],
) -> Result<Sequence<Typing>, VerifyError>
    requires { types.now ≡ program.now }
    ensures { methods_at program.now members.now ≡ map Some (source_methods program.now) → AreVerdicts program.now result }
{
    let mut typings = Vec::new(alloc);
    for method in 0..members.len() {
        match typing_of(alloc, types, program, members[method]) {
            Ok(typing) => typings.push(typing)?,
            Err(error) => return Err(refusal_in(method, error)),
        }
    }
    Ok(Sequence::new(typings))
}

/// A typing of each method of the source, in source order. The error names the first method that has none, by its number from 0, those without code
/// counted too. Out of memory may be returned in place of either.
pub fn typings_of(alloc: Global, program: &Program) -> Result<Sequence<Typing>, VerifyError>
    ensures { AreVerdicts program.now result }
{
    let members = source_members(alloc, program.tree())?;
    let types = TypeTree::new(program.tree(), program.classes(), alloc)?;
    typings_by(alloc, &types, program, members.as_slice())
}

/// The typing of a number.
pub(crate) fn typing_at(typings: &[Typing], method: usize) -> Option<&Typing>
    ensures { option_map (λ typing. typing.now) result ≡ slice_get typings.now method }
{
    typings.get(method)
}
