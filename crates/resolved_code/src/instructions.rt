//! Instructions with their operands looked up, one group after the other.

ghost use Rattle.std.specs.Prelude.{◌≡◌, Some, option_map, false, true};
ghost use Rattle.std.specs.List.{position_from};
ghost use Rattle.cil_model.specs.Bodies.{pc_of, virtual_reference, constructor_reference};
ghost use Rattle.cil_model.specs.Mentions.{literals_of};
ghost use Rattle.cil_model.specs.Same.{same_text};
ghost use Rattle.resolved_code.specs.declared.operations.Operation.TheVariants.{LoadString, Branch, Call, CallVirtual, NewObject};
ghost use Rattle.resolved_code.specs.Rules.{field_rule, method_rule, with_owner, type_operand_rule, field_operand_rule, call_rule, plain_rule, operation_rule};

use crate::errors::ResolveError;
use crate::identities::Identities;
use crate::items::{Resolve, resolve_all};
use crate::labels::Labels;
use crate::literals::Literals;
use crate::numbering::{class_id, resolved_type};
use crate::operations::Operation;
use cil_model::instructions::{BranchCondition, FieldReference, Instruction, MethodReference};
use cil_model::texts::Text;
use cil_model::trees::Line;
use cil_model::types::{ClassName, DeclaredType, Signature};
use name_tables::ids::{ClassId, FieldId};
use name_tables::lookups::NameTables;
use std::alloc::Global;

/// What the names of a tree are looked up in.
#[derive(Drop)]
pub struct Resolver<'a> {
    pub names: &'a NameTables<'a>,
    pub literals: &'a Literals<'a>,
    pub identities: &'a Identities<'a>,
    ghost one_tree: { literals.now.tree.now ≡ names.now.classes.tree.now },
    ghost same_tree: { identities.now.tree.now ≡ names.now.classes.tree.now },
}

// ---- instructions without names

/// An instruction that names nothing (ECMA-335 III.3 and III.4). None for one that names something.
fn plain_operation(instruction: &Instruction) -> Option<Operation>
    ensures { result ≡ plain_rule instruction.now }
{
    let operation = match instruction {
        Instruction::NoOperation => Operation::NoOperation,
        Instruction::LoadInt32(value) => Operation::LoadInt32(*value),
        Instruction::LoadInt64(value) => Operation::LoadInt64(*value),
        Instruction::LoadNull => Operation::LoadNull,
        Instruction::LoadArgument(number) => Operation::LoadArgument(*number),
        Instruction::StoreArgument(number) => Operation::StoreArgument(*number),
        Instruction::LoadLocal(number) => Operation::LoadLocal(*number),
        Instruction::StoreLocal(number) => Operation::StoreLocal(*number),
        Instruction::Duplicate => Operation::Duplicate,
        Instruction::Pop => Operation::Pop,
        Instruction::Binary(operation) => Operation::Binary(*operation),
        Instruction::Unary(operation) => Operation::Unary(*operation),
        Instruction::Shift(operation) => Operation::Shift(*operation),
        Instruction::Compare(comparison) => Operation::Compare(*comparison),
        Instruction::ConvertInt32 => Operation::ConvertInt32,
        Instruction::ConvertInt64 => Operation::ConvertInt64,
        Instruction::LoadLength => Operation::LoadLength,
        Instruction::LoadElement(kind) => Operation::LoadElement(*kind),
        Instruction::StoreElement(kind) => Operation::StoreElement(*kind),
        Instruction::Return => Operation::Return,
        _ => return None,
    };
    Some(operation)
}

// ---- branches

/// A branch, by the index of its label (ECMA-335 III.3.5 to III.3.18). None where no line has the label.
fn branch(labels: &Labels, condition: BranchCondition, label: &Text) -> Option<Operation>
    ensures { result ≡ option_map (Branch condition) (pc_of label.now labels.now.lines.now) }
{
    Some(Operation::Branch(condition, labels.index(label)?))
}

/// A label is resolved to its index.
impl<'a> Resolve<Text> for Labels<'a> {
    type Resolved = usize;

    ghost rule = { λ labels label. pc_of label labels.lines.now };

    fn resolve(&self, _alloc: Global, label: &Text) -> Result<usize, ResolveError> {
        self.index(label).ok_or(ResolveError::Unresolved)
    }
}

impl<'a> Resolver<'a> {
    // ---- types

    /// An instruction on a type (ECMA-335 III.4.3, III.4.6, III.4.20). None where the class that it names refers to nothing.
    fn type_operation(&self, instruction: &Instruction) -> Option<Operation>
        ensures { result ≡ type_operand_rule self.now.names.now.classes.tree.now instruction.now }
    {
        let operation = match instruction {
            Instruction::NewArray(declared) => {
                Operation::NewArray(resolved_type(self.names, declared)?)
            }
            Instruction::CastClass(declared) => {
                Operation::CastClass(resolved_type(self.names, declared)?)
            }
            Instruction::IsInstance(declared) => {
                Operation::IsInstance(resolved_type(self.names, declared)?)
            }
            _ => return None,
        };
        Some(operation)
    }

    // ---- fields

    /// A field of an object, after the class that the text names.
    fn instance_field(&self, reference: &FieldReference) -> Option<(ClassId, FieldId)>
        ensures { result ≡ with_owner self.now.names.now.classes.tree.now reference.now.owner (λ owner field. (owner, field)) (field_rule self.now.names.now.classes.tree.now false reference.now) }
    {
        let owner = class_id(self.names, &reference.owner)?;
        let field = self.names.find_field(false, reference)?;
        Some((owner, field))
    }

    /// An instruction on a field (ECMA-335 III.4.10, III.4.14, III.4.28, III.4.30). None where there is no such field.
    fn field_operation(&self, instruction: &Instruction) -> Option<Operation>
        ensures { result ≡ field_operand_rule self.now.names.now.classes.tree.now instruction.now }
    {
        let operation = match instruction {
            Instruction::LoadField(reference) => {
                let (owner, field) = self.instance_field(reference)?;
                Operation::LoadField { owner, field }
            }
            Instruction::StoreField(reference) => {
                let (owner, field) = self.instance_field(reference)?;
                Operation::StoreField { owner, field }
            }
            Instruction::LoadStaticField(reference) => {
                Operation::LoadStaticField(self.names.find_field(true, reference)?)
            }
            Instruction::StoreStaticField(reference) => {
                Operation::StoreStaticField(self.names.find_field(true, reference)?)
            }
            _ => return None,
        };
        Some(operation)
    }

    // ---- calls

    /// A `call` (ECMA-335 III.3.19). None where there is no such method.
    fn call(&self, is_instance: bool, reference: &MethodReference) -> Option<Operation>
        ensures { result ≡ with_owner self.now.names.now.classes.tree.now reference.now.owner (Call is_instance) (method_rule self.now.names.now.classes.tree.now is_instance reference.now) }
    {
        Some(Operation::Call {
            is_instance,
            owner: class_id(self.names, &reference.owner)?,
            method: self.names.find_method(is_instance, reference)?,
        })
    }

    /// A `callvirt` (ECMA-335 III.4.2). None where there is no such method.
    fn call_virtual(
        &self,
        owner: &ClassName,
        name: &Text,
        signature: &Signature,
    ) -> Option<Operation>
        ensures { result ≡ with_owner self.now.names.now.classes.tree.now owner.now CallVirtual (method_rule self.now.names.now.classes.tree.now true (virtual_reference owner.now name.now signature.now)) }
    {
        Some(Operation::CallVirtual {
            owner: class_id(self.names, owner)?,
            method: self.names.find_virtual(owner, name, signature)?,
        })
    }

    /// A `newobj` (ECMA-335 III.4.21). None where there is no such constructor.
    fn new_object(&self, class: &ClassName, parameters: &[DeclaredType]) -> Option<Operation>
        ensures { result ≡ option_map NewObject (method_rule self.now.names.now.classes.tree.now true (constructor_reference class.now parameters.now)) }
    {
        Some(Operation::NewObject(self.names.find_constructor(class, parameters)?))
    }

    /// A call of one of these kinds. None where there is no such method.
    fn call_operation(&self, instruction: &Instruction) -> Option<Operation>
        ensures { result ≡ call_rule self.now.names.now.classes.tree.now instruction.now }
    {
        match instruction {
            Instruction::Call {
                is_instance,
                method,
            } => self.call(*is_instance, method),
            Instruction::CallVirtual {
                owner,
                name,
                signature,
            } => self.call_virtual(owner, name, signature),
            Instruction::NewObject(class, parameters) => {
                self.new_object(class, parameters.as_slice())
            }
            _ => None,
        }
    }

    // ---- any instruction

    /// A literal by its number (ECMA-335 III.4.16). None where the tree has no such literal.
    fn load_string(&self, text: &Text) -> Option<Operation>
        ensures { result ≡ option_map LoadString (position_from (same_text text.now) 0 (literals_of self.now.names.now.classes.tree.now)) }
    {
        Some(Operation::LoadString(self.literals.number(text)?))
    }
}

/// What the names and labels in a body are looked up in.
#[derive(Drop)]
pub struct BodyResolver<'a> {
    pub resolver: &'a Resolver<'a>,
    pub labels: &'a Labels<'a>,
}

/// A line is resolved to what runs for its instruction.
impl<'a> Resolve<Line> for BodyResolver<'a> {
    type Resolved = Operation;

    ghost rule = { λ r line. operation_rule r.resolver.now.names.now.classes.tree.now r.labels.now.lines.now line.instruction };

    fn resolve(&self, alloc: Global, line: &Line) -> Result<Operation, ResolveError> {
        let instruction = &line.instruction;
        let operation = match instruction {
            Instruction::LoadString(text) => self.resolver.load_string(text),
            Instruction::Switch(targets) => {
                let indices = resolve_all(alloc, self.labels, targets.as_slice())?;
                Some(Operation::Switch(indices))
            }
            Instruction::Branch(condition, label) => branch(self.labels, *condition, label),
            Instruction::NewArray(_) | Instruction::CastClass(_) | Instruction::IsInstance(_) => {
                self.resolver.type_operation(instruction)
            }
            Instruction::LoadField(_)
            | Instruction::StoreField(_)
            | Instruction::LoadStaticField(_)
            | Instruction::StoreStaticField(_) => self.resolver.field_operation(instruction),
            Instruction::Call { .. }
            | Instruction::CallVirtual { .. }
            | Instruction::NewObject(_, _) => self.resolver.call_operation(instruction),
            _ => plain_operation(instruction),
        };
        operation.ok_or(ResolveError::Unresolved)
    }
}
