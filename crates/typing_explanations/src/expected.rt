//! The operands that an instruction expects.

ghost use Rattle.std.specs.Prelude.{◌≤◌, length};

use crate::id_texts::{ClassNames, TypeOf};
use flow_rules::type_tree::type_of_class;
use resolved_code::Program;
use resolved_code::operations::Operation;
use resolved_code::types::ResolvedType;
use source_positions::cil_model::instructions::{
    BranchComparison, BranchCondition, Comparison, ElementKind,
};
use source_positions::name_tables::ids::{FieldId, MethodId};
use std::fmt;
use std::fmt::Display;
use std::slice::from_ref;

/// What a method is made of, with the names of all classes.
#[derive(Clone, Copy)]
pub(crate) struct Scene<'a> {
    pub program: &'a Program,
    pub names: ClassNames<'a>,
    /// The type of the first argument, where the method is not static.
    pub this: Option<ResolvedType>,
    pub parameters: &'a [ResolvedType],
    pub locals: &'a [ResolvedType],
    pub return_type: Option<ResolvedType>,
    pub max_stack: i64,
    pub operations: &'a [Operation],
}

/// The operands that an instruction of a method takes, the topmost last.
#[derive(Clone, Copy)]
pub(crate) struct Expected<'a>(pub &'a Scene<'a>, pub &'a Operation);

/// Types, with commas between them, and one more before them; `nothing` where there are none.
fn write_types<W: fmt::Write>(
    f: &mut fmt::Formatter<W>,
    names: ClassNames,
    first: Option<ResolvedType>,
    others: &[ResolvedType],
) -> fmt::Result {
    let mut comma = "";
    if let Some(first) = first {
        TypeOf(names, first).fmt(f)?;
        comma = ", ";
    }
    for other in others {
        let other = TypeOf(names, *other);
        write!(f, "{comma}{other}")?;
        comma = ", ";
    }
    if comma.is_empty() {
        f.write_str("nothing")
    } else {
        Ok(())
    }
}

impl<'a> Scene<'a> {
    /// How many arguments the method has.
    pub fn count_arguments(&self) -> usize
        ensures { length self.now.parameters.now ≤ result }
    {
        let parameters = self.parameters.len();
        match self.this {
            None => parameters,
            Some(_) => parameters.saturating_add(1),
        }
    }

    /// The type of an argument, by the number that stands in the text.
    fn argument(&self, number: i64) -> Option<ResolvedType> {
        let index = usize::try_from(number).ok()?;
        match (self.this, index) {
            (None, _) => self.parameters.get(index).copied(),
            (this, 0) => this,
            _ => self.parameters.get(index - 1).copied(),
        }
    }

    /// The type of a local, by the number that stands in the text.
    fn local(&self, number: i64) -> Option<ResolvedType> {
        let index = usize::try_from(number).ok()?;
        self.locals.get(index).copied()
    }

    fn parameters_of(&self, method: MethodId) -> &'a [ResolvedType] {
        match self.program.method(method) {
            None => &[],
            Some(method) => method.parameters.as_slice(),
        }
    }

    fn field(&self, field: FieldId) -> &'a [ResolvedType] {
        match self.program.field(field) {
            None => &[],
            Some(field) => from_ref(&field.field_type),
        }
    }

    /// The operands of an instruction that are declared types, the first by itself; None where the sentence has them already.
    pub fn declared_type(
        &self,
        operation: &Operation,
    ) -> Option<(Option<ResolvedType>, &'a [ResolvedType])> {
        match operation {
            Operation::StoreArgument(number) => Some((self.argument(*number), &[])),
            Operation::StoreLocal(number) => Some((self.local(*number), &[])),
            Operation::LoadField { owner, .. } => Some((Some(type_of_class(*owner)), &[])),
            Operation::StoreField { owner, field } => {
                Some((Some(type_of_class(*owner)), self.field(*field)))
            }
            Operation::StoreStaticField(field) => Some((None, self.field(*field))),
            Operation::Call {
                is_instance: true,
                owner,
                method,
            }
            | Operation::CallVirtual { owner, method } => {
                Some((Some(type_of_class(*owner)), self.parameters_of(*method)))
            }
            Operation::Call { method, .. } => Some((None, self.parameters_of(*method))),
            Operation::NewObject(method) => Some((None, self.parameters_of(*method))),
            Operation::Return => Some((self.return_type, &[])),
            _ => None,
        }
    }
}

/// Operands that are no declared types.
fn kinds_expected(operation: &Operation) -> &'static str {
    match operation {
        Operation::Duplicate | Operation::Pop => "a value",
        Operation::Binary(_) | Operation::Compare(Comparison::Greater | Comparison::Less) =>
            "two integers of one size",
        Operation::Branch(
            BranchCondition::Compare(
                BranchComparison::GreaterOrEqual
                | BranchComparison::Greater
                | BranchComparison::LessOrEqual
                | BranchComparison::Less,
            ),
            _,
        ) => "two integers of one size",
        Operation::Compare(_) | Operation::Branch(BranchCondition::Compare(_), _) => {
            "two integers of one size, or two references"
        }
        Operation::Unary(_) => "int32 or int64",
        Operation::ConvertInt32 | Operation::ConvertInt64 => "int32, int64 or native int",
        Operation::Shift(_) => "int32 or int64, and int32",
        Operation::Branch(BranchCondition::IfTrue | BranchCondition::IfFalse, _) =>
            "int32, int64 or a reference",
        Operation::Switch(_) => "int32",
        Operation::NewArray(_) => "int32 or native int",
        Operation::CastClass(_) | Operation::IsInstance(_) => "a reference",
        _ => elements_expected(operation),
    }
}

/// The operands of instructions on arrays.
fn elements_expected(operation: &Operation) -> &'static str {
    match operation {
        Operation::LoadLength => "an array",
        Operation::LoadElement(ElementKind::Int32) => "int32[], and int32 or native int",
        Operation::LoadElement(ElementKind::Int64) => "int64[], and int32 or native int",
        Operation::LoadElement(ElementKind::Reference) =>
            "an array of references, and int32 or native int",
        Operation::StoreElement(ElementKind::Int32) => "int32[], int32 or native int, and int32",
        Operation::StoreElement(ElementKind::Int64) => "int64[], int32 or native int, and int64",
        Operation::StoreElement(ElementKind::Reference) => {
            "an array of references, int32 or native int, and a reference"
        }
        _ => "nothing",
    }
}

impl fmt::Display for Expected<'_> {
    fn fmt<W: fmt::Write>(&self, f: &mut fmt::Formatter<W>) -> fmt::Result {
        match self.0.declared_type(self.1) {
            Some((first, others)) => write_types(f, self.0.names, first, others),
            None => f.write_str(kinds_expected(self.1)),
        }
    }
}
