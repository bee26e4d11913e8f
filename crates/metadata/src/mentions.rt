//! What a tree names: its types, in source order, and what its instructions name.

ghost use Rattle.std.specs.Prelude.{◌≡◌, [], ◌∷◌, ◌++◌, IfOk, map, option_map, option_to_list, flat_map};
ghost use Rattle.cil_model.specs.Bodies.{labels_of};
ghost use Rattle.cil_model.specs.Declarations.{field_members, method_members};
ghost use Rattle.cil_model.specs.Mentions.{types_of_signature, types_of_instruction, owners_of_instruction, instructions_of, types_of_method, types_of_tree};

use crate::violations::{SourceMember, TypeSite, TypesPart};
use cil_model::instructions::Instruction;
use cil_model::memory::NoMemory;
use cil_model::texts::Text;
use cil_model::trees::{Class, Method, Tree};
use cil_model::types::{ClassName, DeclaredType, Signature};
use name_tables::bodies::{lines_of, locals_of};
use name_tables::classes::{field_members, method_members};
use std::alloc::Global;
use std::slice::from_ref;

/// A type, and where it is written.
#[derive(Clone, Copy)]
pub struct SitedType<'a> {
    pub declared: &'a DeclaredType,
    pub site: TypeSite,
}

/// Types that are written together in the text: a list of parameters, and one more type after it.
#[derive(Clone, Copy)]
pub struct NamedTypes<'a> {
    pub parameters: &'a [DeclaredType],
    pub last: Option<&'a DeclaredType>,
}

impl<'a> NamedTypes<'a> {
    ghost use Rattle.metadata.specs.NameChecks.{types_named};

    fn none() -> Self
        ensures { types_named result ≡ [] }
    {
        NamedTypes {
            parameters: &[],
            last: None,
        }
    }

    fn one(declared: &'a DeclaredType) -> Self
        ensures { types_named result ≡ declared.now ∷ [] }
    {
        NamedTypes {
            parameters: &[],
            last: Some(declared),
        }
    }

    /// The types of parameters and of the result (ECMA-335 II.15.3).
    pub fn of_signature(signature: &'a Signature) -> Self
        ensures { types_named result ≡ types_of_signature signature.now }
    {
        NamedTypes {
            parameters: signature.parameters.as_slice(),
            last: signature.return_type.as_ref(),
        }
    }

    /// The types that an instruction names.
    pub fn of_instruction(instruction: &'a Instruction) -> Self
        ensures { types_named result ≡ types_of_instruction instruction.now }
    {
        match instruction {
            Instruction::LoadField(reference)
            | Instruction::StoreField(reference)
            | Instruction::LoadStaticField(reference)
            | Instruction::StoreStaticField(reference) => NamedTypes::one(&reference.field_type),
            Instruction::NewArray(declared)
            | Instruction::CastClass(declared)
            | Instruction::IsInstance(declared) => NamedTypes::one(declared),
            Instruction::Call { method, .. } => NamedTypes::of_signature(&method.signature),
            Instruction::CallVirtual { signature, .. } => NamedTypes::of_signature(signature),
            Instruction::NewObject(_, parameters) => NamedTypes {
                parameters: parameters.as_slice(),
                last: None,
            },
            _ => NamedTypes::none(),
        }
    }

    /// Adds them to a list. When memory runs out, the list may hold some of them.
    fn add_to(self, types: &mut Vec<SitedType<'a>>, part: TypesPart) -> Result<(), NoMemory>
        ensures { IfOk result (λ _. map (λ t. t.declared.now) types.new.items ≡ map (λ t. t.declared.now) types.old.items ++ types_named self.entry) }
    {
        for (index, declared) in self.parameters.iter().enumerate() {
            let site = TypeSite { part, index };
            types.push(SitedType { declared, site })?;
        }
        if let Some(declared) = self.last {
            let index = self.parameters.len();
            let site = TypeSite { part, index };
            types.push(SitedType { declared, site })?;
        }
        Ok(())
    }
}

/// The class whose member an instruction names.
pub fn owner_of_instruction(instruction: &Instruction) -> Option<&ClassName>
    ensures { option_to_list (option_map (λ c. c.now) result) ≡ owners_of_instruction instruction.now }
{
    match instruction {
        Instruction::LoadField(reference)
        | Instruction::StoreField(reference)
        | Instruction::LoadStaticField(reference)
        | Instruction::StoreStaticField(reference) => Some(&reference.owner),
        Instruction::Call { method, .. } => Some(&method.owner),
        Instruction::CallVirtual { owner, .. } => Some(owner),
        Instruction::NewObject(class, _) => Some(class),
        _ => None,
    }
}

/// The labels to which an instruction may go (ECMA-335 III.1.7.2).
pub fn labels_of(instruction: &Instruction) -> &[Text]
    ensures { result.now ≡ labels_of instruction.now }
{
    match instruction {
        Instruction::Branch(_, label) => from_ref(label),
        Instruction::Switch(labels) => labels.as_slice(),
        _ => &[],
    }
}

fn add_types_of_method<'a>(
    types: &mut Vec<SitedType<'a>>,
    method: SourceMember,
    declared: &'a Method,
) -> Result<(), NoMemory>
    ensures { IfOk result (λ _. map (λ t. t.declared.now) types.new.items ≡ map (λ t. t.declared.now) types.old.items ++ types_of_method declared.now) }
{
    let signature = NamedTypes::of_signature(&declared.signature);
    signature.add_to(types, TypesPart::Signature(method))?;
    let locals = NamedTypes {
        parameters: locals_of(declared),
        last: None,
    };
    locals.add_to(types, TypesPart::Locals(method))?;
    for (line, code) in lines_of(declared).iter().enumerate() {
        let named = NamedTypes::of_instruction(&code.instruction);
        named.add_to(types, TypesPart::Line { method, line })?;
    }
    Ok(())
}

/// The types of the methods of a class.
fn add_types_of_methods<'a>(
    alloc: Global,
    types: &mut Vec<SitedType<'a>>,
    class: usize,
    declared: &'a Class,
) -> Result<(), NoMemory>
    ensures { IfOk result (λ _. map (λ t. t.declared.now) types.new.items ≡ map (λ t. t.declared.now) types.old.items ++ flat_map types_of_method (method_members declared.now)) }
{
    let methods = method_members(alloc, declared)?;
    for (index, method) in methods.as_slice().iter().enumerate() {
        add_types_of_method(types, SourceMember { class, index }, method)?;
    }
    Ok(())
}

/// The types of the fields of a class.
fn add_types_of_fields<'a>(
    alloc: Global,
    types: &mut Vec<SitedType<'a>>,
    class: usize,
    declared: &'a Class,
) -> Result<(), NoMemory>
    ensures { IfOk result (λ _. map (λ t. t.declared.now) types.new.items ≡ map (λ t. t.declared.now) types.old.items ++ map (λ f. f.field_type) (field_members declared.now)) }
{
    let fields = field_members(alloc, declared)?;
    for (index, field) in fields.as_slice().iter().enumerate() {
        let field_type = NamedTypes::one(&field.field_type);
        field_type.add_to(types, TypesPart::Field(SourceMember { class, index }))?;
    }
    Ok(())
}

/// Every type that occurs in the tree, those of fields first. The only error is out of memory.
pub fn types_of_tree(alloc: Global, tree: &Tree) -> Result<Vec<SitedType<'_>>, NoMemory>
    ensures { IfOk result (λ v. map (λ t. t.declared.now) v.items ≡ types_of_tree tree.now) }
{
    let mut types = Vec::new(alloc);
    for (class, declared) in tree.classes.as_slice().iter().enumerate() {
        add_types_of_fields(alloc, &mut types, class, declared)?;
    }
    for (class, declared) in tree.classes.as_slice().iter().enumerate() {
        add_types_of_methods(alloc, &mut types, class, declared)?;
    }
    Ok(types)
}
