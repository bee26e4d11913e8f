//! Where a method has no typing (number 301).

use crate::expected::{Expected, Scene};
use crate::id_texts::{ClassNames, StackOf};
use crate::methods::SourceMethod;
use crate::refusals::Refusal;
use crate::remedies::{Operands, Remedy};
use flow_rules::type_tree::type_of_class;
use resolved_code::Program;
use resolved_code::classes::{ResolvedKind, body_of};
use source_positions::cil_model::memory::NoMemory;
use source_positions::name_tables::built_in::BuiltInClass;
use source_positions::name_tables::ids::{ClassId, MethodId};
use source_positions::{Named, token_at};
use std::alloc::Global;
use std::fmt;
use verifier::failures::{FailurePoint, IncomingStack};

/// What a method is made of. None where the program has no code for it.
fn scene_of<'a>(
    program: &'a Program,
    names: ClassNames<'a>,
    found: &SourceMethod<'_>,
) -> Option<Scene<'a>> {
    let class = ClassId::new(found.number.class.checked_add(names.built_in.len())?);
    let index = found.number.index;
    let method = program.method(MethodId { class, index })?;
    let body = body_of(&method.kind)?;
    let is_static = matches!(method.kind, ResolvedKind::Static(_));
    Some(Scene {
        program,
        names,
        this: if is_static {
            None
        } else {
            Some(type_of_class(class))
        },
        parameters: method.parameters.as_slice(),
        locals: body.locals.as_slice(),
        return_type: method.return_type,
        max_stack: body.max_stack,
        operations: body.operations.as_slice(),
    })
}

/// The most values of a stack whose lines are looked for.
const MOST_LINES: usize = 8;

/// The lines of the instructions that pushed the topmost values of the stack before an instruction, the top first.
fn lines_of(
    alloc: Global,
    found: &SourceMethod<'_>,
    scene: &Scene<'_>,
    instruction: usize,
    height: usize,
) -> Result<Vec<Option<usize>>, NoMemory> {
    let mut lines = Vec::new(alloc);
    for above in 0..height.min(MOST_LINES) {
        lines.push(line_of(found, scene, scene.pusher(instruction, above)))?;
    }
    Ok(lines)
}

/// The line of an instruction, from 1.
fn line_of(
    found: &SourceMethod<'_>,
    scene: &Scene<'_>,
    instruction: Option<usize>,
) -> Option<usize> {
    found.line_of(instruction?, scene.operations.len())
}

/// The method, the instruction by its index, and the stacks there.
#[derive(Clone, Copy)]
struct Stacks<'a> {
    found: &'a SourceMethod<'a>,
    refusal: &'a Refusal<'a>,
    failure: &'a FailurePoint,
    /// The lines of the values before the instruction, and of those that control brings to it.
    lines: &'a [Option<usize>],
    incoming: &'a [Option<usize>],
}

impl fmt::Display for Stacks<'_> {
    fn fmt<W: fmt::Write>(&self, f: &mut fmt::Formatter<W>) -> fmt::Result {
        let class = self.found.class_name;
        let method = self.found.name();
        let instruction = self.failure.instruction;
        let stack = StackOf {
            names: self.refusal.scene.names,
            entries: self.failure.stack.as_slice(),
            lines: self.lines,
        };
        write!(
            f,
            "method {class}::{method}, instruction {instruction}; stack: {stack}"
        )?;
        match (self.refusal.operation, &self.failure.incoming) {
            (Some(operation), _) if self.refusal.is_of_operands() => {
                let expected = Expected(self.refusal.scene, operation);
                write!(f, "; expected: {expected}")
            }
            (_, Some(incoming)) => self.write_incoming(f, incoming),
            _ => Ok(()),
        }
    }
}

impl Stacks<'_> {
    /// The stack that control brings to an instruction.
    fn write_incoming<W: fmt::Write>(
        &self,
        f: &mut fmt::Formatter<W>,
        incoming: &IncomingStack,
    ) -> fmt::Result {
        let stack = StackOf {
            names: self.refusal.scene.names,
            entries: incoming.stack.as_slice(),
            lines: self.incoming,
        };
        let from = incoming.from;
        if from == self.failure.instruction {
            return write!(f, "; stack after it: {stack}");
        }
        write!(f, "; stack from instruction {from}: {stack}")
    }
}

/// The lines of the values that control brings to an instruction, the top first.
fn incoming_lines(
    alloc: Global,
    found: &SourceMethod<'_>,
    scene: &Scene<'_>,
    failure: &FailurePoint,
) -> Result<Vec<Option<usize>>, NoMemory> {
    match &failure.incoming {
        None => Ok(Vec::new(alloc)),
        Some(incoming) => {
            let next = incoming.from.saturating_add(1);
            let height = incoming.stack.as_slice().len();
            lines_of(alloc, found, scene, next, height)
        }
    }
}

/// Adds the method, the instruction and the stacks there, and what to write.
fn push_stacks<'a>(
    alloc: Global,
    message: &mut String,
    found: &'a SourceMethod<'a>,
    refusal: &'a Refusal<'a>,
    failure: &'a FailurePoint,
    height: Option<usize>,
) -> Result<(), NoMemory> {
    let scene = refusal.scene;
    let instruction = failure.instruction;
    let stack = failure.stack.as_slice();
    let lines = lines_of(alloc, found, scene, instruction, stack.len())?;
    let incoming = incoming_lines(alloc, found, scene, failure)?;
    let stacks = Stacks {
        found: &*found,
        refusal: &*refusal,
        failure,
        lines: lines.as_slice(),
        incoming: incoming.as_slice(),
    };
    writeln!(message, "{stacks}")?;
    let operands = Operands {
        instruction,
        stack,
        lines: lines.as_slice(),
    };
    match refusal.remedy(operands, height) {
        None => Ok(()),
        Some(remedy) => push_help(message, remedy),
    }
}

fn push_help(message: &mut String, remedy: Remedy) -> Result<(), NoMemory> {
    writeln!(message, "help: {remedy}")?;
    Ok(())
}

/// The explanation of a method with instructions.
fn explain_instruction(
    alloc: Global,
    named: Named,
    found: &SourceMethod<'_>,
    scene: &Scene<'_>,
    failure: &FailurePoint,
    height: Option<usize>,
) -> Result<String, NoMemory> {
    let offset = found.offset_of(failure.instruction, scene.operations.len());
    let token = token_at(named.text, offset.unwrap_or(named.text.len()));
    let refusal = Refusal {
        scene,
        reason: failure.reason,
        operation: scene.operations.get(failure.instruction),
        name: str::from_utf8(token).unwrap_or("?"),
    };
    let sentence = refusal.to_string(alloc)?;
    let mut message = named.message(alloc, offset, sentence.as_str())?;
    push_stacks(alloc, &mut message, found, &refusal, failure, height)?;
    Ok(message)
}

/// The explanation of a method whose code has no instruction.
fn explain_empty(
    alloc: Global,
    named: Named,
    found: &SourceMethod<'_>,
) -> Result<String, NoMemory> {
    let class = found.class_name;
    let method = found.name();
    let offset = found.offset_of(0, 0);
    let sentence = "the method has no instruction: control runs off its end";
    let mut message = named.message(alloc, offset, sentence)?;
    writeln!(message, "method {class}::{method}")?;
    Ok(message)
}

fn explain_method(
    alloc: Global,
    named: Named,
    found: &SourceMethod<'_>,
    scene: &Scene<'_>,
    failure: &FailurePoint,
    height: Option<usize>,
) -> Result<String, NoMemory> {
    if scene.operations.is_empty() {
        return explain_empty(alloc, named, found);
    }
    explain_instruction(alloc, named, found, scene, failure, height)
}

/// Why a method of a program, which was read from a text, has no typing (number 301), by the method's number in the source, from 0, and
/// what the verifier reports of its failure: what is wrong with the instruction at fault, that line, and then the method, the instruction's
/// index from 0 and the stacks there, the deepest value first, each with the line of the instruction that pushed it, where that is known.
/// The last line says what to write, where that can be said; of a stack that is too high it is the height, if it is given, which the
/// method needs. None where the program has no method of the number with code. Fails only when out of memory.
pub fn explain_typing(
    alloc: Global,
    named: Named,
    program: &Program,
    method: usize,
    failure: &FailurePoint,
    height: Option<usize>,
) -> Result<Option<String>, NoMemory> {
    let sources = program.tree().classes.as_slice();
    let Some(found) = SourceMethod::find(named.text, sources, method) else {
        return Ok(None);
    };
    let table = BuiltInClass::all(alloc)?;
    let names = ClassNames {
        built_in: table.as_slice(),
        sources,
    };
    match scene_of(program, names, &found) {
        None => Ok(None),
        Some(scene) => {
            let text = explain_method(alloc, named, &found, &scene, failure, height)?;
            Ok(Some(text))
        }
    }
}
