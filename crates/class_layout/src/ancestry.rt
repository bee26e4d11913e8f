//! Which types may be given for which, by their classes (ECMA-335 I.8.7).

ghost use Rattle.std.specs.Prelude.{◌≡◌, ◌<◌, ◌==◌, ℕ, IfOk, Some, map, length, flat_map, slice_get};
ghost use Rattle.std.specs.List.{list_any};
ghost use Rattle.cil_model.specs.declared.types.ClassName.{ClassName};
ghost use Rattle.cil_model.specs.declared.types.DeclaredType.{DeclaredType};
ghost use Rattle.cil_model.specs.Assignable.{is_assignable};
ghost use Rattle.cil_model.specs.Declarations.{Declaration};
ghost use Rattle.name_tables.specs.Numbers.{declarations};
ghost use Rattle.resolved_code.specs.ById.{type_at};
ghost use Rattle.class_layout.specs.ByClass.{by_class, assignable_row, with_interfaces, marked_at};

use crate::classes::Classes;
use crate::rows::{flag_at, row_at};
use cil_model::memory::NoMemory;
use name_tables::ids::ClassId;
use resolved_code::type_tests::TypeTest;
use resolved_code::types::ResolvedType;
use std::alloc::Global;

/// For each class, whether it may be given for each class.
#[derive(Drop)]
pub struct Ancestry {
    pub rows: Vec<Vec<bool>>,
}

/// The classes of a chain, each with the interfaces that it lists.
fn ancestors(alloc: Global, classes: &Classes, chain: &[ClassId]) -> Result<Vec<ClassId>, NoMemory>
    ensures { IfOk result (λ v. v.items ≡ flat_map (with_interfaces (map (λ r. r.interfaces) classes.now.all.now)) chain.now) }
{
    let mut ancestors = Vec::new(alloc);
    for class in chain {
        ancestors.push(*class)?;
        ancestors.extend_from_slice(classes.interfaces(*class))?;
    }
    Ok(ancestors)
}

/// For each class whose number is below the count, whether it is among these.
fn marks(alloc: Global, count: usize, classes: &[ClassId]) -> Result<Vec<bool>, NoMemory>
    ensures { IfOk result (λ v. (length v.items ≡ count) × ((j : ℕ) → j < count → slice_get v.items j ≡ Some (list_any (λ m. m == j) classes.now))) }
{
    let mut marks = vec![in alloc; false; count]?;
    for class in classes {
        let number = class.number();
        if number < marks.len() {
            marks[number] = true;
        }
    }
    Ok(marks)
}

/// Which classes a class is assignable to.
fn row(alloc: Global, classes: &Classes, class: ClassId) -> Result<Vec<bool>, NoMemory>
    ensures { IfOk result (λ v. (e : ClassName × Declaration) → slice_get (declarations classes.now.program.now) class ≡ Some e → v.items ≡ assignable_row classes.now.program.now e.0) }
{
    let ancestors = ancestors(alloc, classes, classes.chain(class))?;
    marks(alloc, classes.count(), ancestors.as_slice())
}

fn rows(alloc: Global, classes: &Classes) -> Result<Vec<Vec<bool>>, NoMemory>
    ensures { IfOk result (λ v. map (λ row. row.items) v.items ≡ by_class classes.now.program.now (assignable_row classes.now.program.now)) }
{
    let mut rows = Vec::new(alloc);
    for class in 0..classes.count() {
        rows.push(row(alloc, classes, ClassId::new(class))?)?;
    }
    Ok(rows)
}

impl Ancestry {
    ghost use Rattle.class_layout.specs.Layouts.{IsAncestry};
    ghost use Rattle.cil_model.specs.declared.trees.Tree.{Tree};

    /// The only error is out of memory.
    pub fn new(alloc: Global, classes: &Classes) -> Result<Self, NoMemory>
        ensures { IfOk result (λ table. IsAncestry classes.now.program.now table) }
    {
        Ok(Ancestry {
            rows: rows(alloc, classes)?,
        })
    }

    /// Whether a class may be given for another.
    fn is_class_assignable(&self, from: ClassId, to: ClassId) -> bool
        ensures { result ≡ marked_at (map (λ row. row.items) self.now.rows.items) from to }
    {
        flag_at(row_at(self.rows.as_slice(), from), to)
    }

    /// Whether a value of the first type may be given where the second is expected.
    pub fn is_assignable(&self, from: ResolvedType, to: ResolvedType) -> bool
        ensures { (tree : Tree) → IsAncestry tree self.now → (a b : DeclaredType) → type_at tree from ≡ Some a → type_at tree to ≡ Some b → result ≡ is_assignable tree a b }
    {
        match from.test_for(to) {
            TypeTest::Answered(answer) => answer,
            TypeTest::OfClasses { from, to } => {
                self.is_class_assignable(ClassId::new(from), ClassId::new(to))
            }
        }
    }
}
