//! Instructions in their long forms.

ghost use Rattle.std.specs.Prelude.{◌≡◌};
ghost use Rattle.std.specs.Option.{option_map};
ghost use Rattle.cil_model.specs.Grammar.{binary_word, branch_word, comparison_word, load_element_word, shift_word, store_element_word, unary_word};
ghost use Rattle.instruction_text.specs.Operands.{text_of};
ghost use Rattle.instruction_text.specs.Texts.{operand_text, word_text};

use crate::characters::CharactersText;
use crate::references::{ConstructorText, FieldText, MethodText, VirtualText};
use crate::types::TypeText;
use cil_model::instructions::{
    BinaryOperation, BranchComparison, BranchCondition, Comparison, ElementKind, Instruction,
    ShiftOperation, UnaryOperation,
};
use cil_model::texts::Text;
use std::fmt;
use std::fmt::Display;

/// An instruction as ilasm writes it, in its long form, with one space before an operand (ECMA-335 III): `ldc.i4 2`, `br L1`,
/// `call void [mscorlib]System.Console::WriteLine(int32)`.
///
/// It is one line of printable ASCII: in names and string literals a backslash and what represents it replaces each other
/// byte.
#[derive(Clone, Copy)]
pub struct InstructionText<'a>(pub &'a Instruction);

impl<'a> fmt::Display for InstructionText<'a> {
    ghost use Rattle.std.specs.Prelude.{Some};
    ghost use Rattle.instruction_text.specs.Texts.{instruction_text};

    ghost output = { λ instruction. Some (instruction_text instruction.0.now) };

    fn fmt<W: fmt::Write>(&self, f: &mut fmt::Formatter<W>) -> fmt::Result {
        let word = word_of(self.0);
        match operand_of(self.0) {
            None => f.write_str(word),
            Some(operand) => write!(f, "{word} {operand}"),
        }
    }
}

/// What follows the word of an instruction.
#[derive(Clone, Copy)]
enum Operand<'a> {
    Number(i64),
    Quoted(CharactersText<'a>),
    Label(CharactersText<'a>),
    Labels(LabelsText<'a>),
    Field(FieldText<'a>),
    Type(TypeText<'a>),
    Method(MethodText<'a>),
    Virtual(VirtualText<'a>),
    Constructor(ConstructorText<'a>),
}

impl<'a> fmt::Display for Operand<'a> {
    ghost use Rattle.std.specs.Prelude.{Some};
    ghost use Rattle.instruction_text.specs.Operands.{text_of};

    ghost output = { λ operand. Some (text_of operand) };

    fn fmt<W: fmt::Write>(&self, f: &mut fmt::Formatter<W>) -> fmt::Result {
        match self {
            Operand::Number(number) => number.fmt(f),
            Operand::Quoted(characters) => write!(f, "\"{characters}\""),
            Operand::Label(label) => label.fmt(f),
            Operand::Labels(labels) => labels.fmt(f),
            Operand::Field(field) => field.fmt(f),
            Operand::Type(operand) => operand.fmt(f),
            Operand::Method(method) => method.fmt(f),
            Operand::Virtual(method) => method.fmt(f),
            Operand::Constructor(constructor) => constructor.fmt(f),
        }
    }
}

/// Labels in parentheses, with a comma and a space between two: `(L1, L2)`.
#[derive(Clone, Copy)]
struct LabelsText<'a>(&'a [Text]);

impl<'a> fmt::Display for LabelsText<'a> {
    ghost use Rattle.std.specs.Prelude.{Some};
    ghost use Rattle.instruction_text.specs.Texts.{labels_text};

    ghost output = { λ labels. Some (labels_text labels.0.now) };

    fn fmt<W: fmt::Write>(&self, f: &mut fmt::Formatter<W>) -> fmt::Result {
        let Some((first, others)) = self.0.split_first() else {
            return f.write_str("()");
        };
        write!(f, "({}", CharactersText(first))?;
        for label in others {
            write!(f, ", {}", CharactersText(label))?;
        }
        f.write_str(")")
    }
}

/// The operand of an instruction, if it has one.
fn operand_of(instruction: &Instruction) -> Option<Operand<'_>>
    ensures { option_map text_of result ≡ operand_text instruction.now }
{
    let operand = match instruction {
        Instruction::LoadInt32(number) => Operand::Number(i64::from(*number)),
        Instruction::LoadInt64(number)
        | Instruction::LoadArgument(number)
        | Instruction::StoreArgument(number)
        | Instruction::LoadLocal(number)
        | Instruction::StoreLocal(number) => Operand::Number(*number),
        Instruction::LoadString(text) => Operand::Quoted(CharactersText(text)),
        Instruction::Branch(_, label) => Operand::Label(CharactersText(label)),
        Instruction::Switch(labels) => Operand::Labels(LabelsText(labels.as_slice())),
        Instruction::LoadField(field)
        | Instruction::StoreField(field)
        | Instruction::LoadStaticField(field)
        | Instruction::StoreStaticField(field) => Operand::Field(FieldText(field)),
        Instruction::NewArray(operand)
        | Instruction::CastClass(operand)
        | Instruction::IsInstance(operand) => Operand::Type(TypeText(operand)),
        Instruction::Call { method, .. } => Operand::Method(MethodText(method)),
        Instruction::CallVirtual {
            owner,
            name,
            signature,
        } => Operand::Virtual(VirtualText(owner, name, signature)),
        Instruction::NewObject(owner, parameters) => {
            Operand::Constructor(ConstructorText(owner, parameters.as_slice()))
        }
        _ => return None,
    };
    Some(operand)
}

/// The word of an instruction, with what is between it and an operand.
fn word_of(instruction: &Instruction) -> &'static str
    ensures { result.now ≡ word_text instruction.now }
{
    match instruction {
        Instruction::NoOperation => "nop",
        Instruction::LoadInt32(_) => "ldc.i4",
        Instruction::LoadInt64(_) => "ldc.i8",
        Instruction::LoadNull => "ldnull",
        Instruction::LoadString(_) => "ldstr",
        Instruction::LoadArgument(_) => "ldarg",
        Instruction::StoreArgument(_) => "starg",
        Instruction::LoadLocal(_) => "ldloc",
        Instruction::StoreLocal(_) => "stloc",
        Instruction::Duplicate => "dup",
        Instruction::Pop => "pop",
        Instruction::Binary(operation) => binary_word(*operation),
        Instruction::Unary(operation) => unary_word(*operation),
        Instruction::Shift(operation) => shift_word(*operation),
        Instruction::Compare(comparison) => comparison_word(*comparison),
        Instruction::ConvertInt32 => "conv.i4",
        Instruction::ConvertInt64 => "conv.i8",
        Instruction::Branch(condition, _) => branch_word(*condition),
        Instruction::Switch(_) => "switch",
        Instruction::LoadField(_) => "ldfld",
        Instruction::StoreField(_) => "stfld",
        Instruction::LoadStaticField(_) => "ldsfld",
        Instruction::StoreStaticField(_) => "stsfld",
        Instruction::NewArray(_) => "newarr",
        Instruction::LoadLength => "ldlen",
        Instruction::LoadElement(kind) => load_element_word(*kind),
        Instruction::StoreElement(kind) => store_element_word(*kind),
        Instruction::CastClass(_) => "castclass",
        Instruction::IsInstance(_) => "isinst",
        Instruction::Call {
            is_instance: true,
            ..
        } => "call instance",
        Instruction::Call { .. } => "call",
        Instruction::CallVirtual { .. } => "callvirt instance",
        Instruction::NewObject(..) => "newobj instance",
        Instruction::Return => "ret",
    }
}

fn binary_word(operation: BinaryOperation) -> &'static str
    ensures { result.now ≡ binary_word operation }
{
    match operation {
        BinaryOperation::Add => "add",
        BinaryOperation::Subtract => "sub",
        BinaryOperation::Multiply => "mul",
        BinaryOperation::AddOverflow => "add.ovf",
        BinaryOperation::SubtractOverflow => "sub.ovf",
        BinaryOperation::MultiplyOverflow => "mul.ovf",
        BinaryOperation::Divide => "div",
        BinaryOperation::Remainder => "rem",
        BinaryOperation::And => "and",
        BinaryOperation::Or => "or",
        BinaryOperation::ExclusiveOr => "xor",
    }
}

fn unary_word(operation: UnaryOperation) -> &'static str
    ensures { result.now ≡ unary_word operation }
{
    match operation {
        UnaryOperation::Negate => "neg",
        UnaryOperation::Complement => "not",
    }
}

fn shift_word(operation: ShiftOperation) -> &'static str
    ensures { result.now ≡ shift_word operation }
{
    match operation {
        ShiftOperation::Left => "shl",
        ShiftOperation::Right => "shr",
        ShiftOperation::RightUnsigned => "shr.un",
    }
}

fn comparison_word(comparison: Comparison) -> &'static str
    ensures { result.now ≡ comparison_word comparison }
{
    match comparison {
        Comparison::Equal => "ceq",
        Comparison::Greater => "cgt",
        Comparison::Less => "clt",
    }
}

fn branch_word(condition: BranchCondition) -> &'static str
    ensures { result.now ≡ branch_word condition }
{
    match condition {
        BranchCondition::Always => "br",
        BranchCondition::IfTrue => "brtrue",
        BranchCondition::IfFalse => "brfalse",
        BranchCondition::Compare(BranchComparison::Equal) => "beq",
        BranchCondition::Compare(BranchComparison::NotEqual) => "bne.un",
        BranchCondition::Compare(BranchComparison::GreaterOrEqual) => "bge",
        BranchCondition::Compare(BranchComparison::Greater) => "bgt",
        BranchCondition::Compare(BranchComparison::LessOrEqual) => "ble",
        BranchCondition::Compare(BranchComparison::Less) => "blt",
    }
}

fn load_element_word(kind: ElementKind) -> &'static str
    ensures { result.now ≡ load_element_word kind }
{
    match kind {
        ElementKind::Int32 => "ldelem.i4",
        ElementKind::Int64 => "ldelem.i8",
        ElementKind::Reference => "ldelem.ref",
    }
}

fn store_element_word(kind: ElementKind) -> &'static str
    ensures { result.now ≡ store_element_word kind }
{
    match kind {
        ElementKind::Int32 => "stelem.i4",
        ElementKind::Int64 => "stelem.i8",
        ElementKind::Reference => "stelem.ref",
    }
}
