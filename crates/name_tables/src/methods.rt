//! The methods that classes have and inherit by name and signature, whether they are static or not: all, and the virtual ones.

ghost use Rattle.std.specs.Prelude.{◌≡◌, ◌≢◌, ◌<◌, ◌==◌, Bool, IfOk, OnErr, OnOk, Some, true, false, [], is_none, is_some, length, map, not, option_map, slice_get, slice_index_or, ℕ};
ghost use Rattle.std.specs.List.{list_all};
ghost use Rattle.inheritance.specs.Lines.{Ends};
ghost use Rattle.inheritance.specs.ScopedTables.{nearest_from};
ghost use Rattle.inheritance.specs.MarkedDeclarations.{is_marked};
ghost use Rattle.name_tables.specs.Entries.{declaration_in};
ghost use Rattle.name_tables.specs.KeyIds.{number_in};
ghost use Rattle.name_tables.specs.Keys.{method_of_key};
ghost use Rattle.name_tables.specs.Members.{base_numbers, EndsIn, IsMemberTable};
ghost use Rattle.name_tables.specs.Methods.{method_index, virtual_index, virtual_number, virtuals_of, line_of, methods_at};
ghost use Rattle.name_tables.specs.Numbers.{nearest_number};
ghost use Rattle.name_tables.specs.Sameness.{MethodIdentity, identity_of};

use crate::class_tables::ClassTable;
use crate::ids::{ClassId, MethodId};
use crate::inherited::{Inherited, number_of, row_numbers};
use crate::keys::MethodKey;
use crate::lookups::{NameTables, method_id};
use cil_model::memory::NoMemory;
use inheritance::Cyclic;
use std::alloc::Global;

/// The methods of a tree by name and signature, and the virtual ones by the numbers of these.
#[derive(Drop)]
pub struct MethodTables<'a> {
    pub names: &'a NameTables<'a>,
    overridable: Inherited<usize>,
    ghost overridable_are: { IsMemberTable names.now.classes.tree.now overridable.inheritance.forest (virtual_number names.now.methods.keys overridable.keys) (virtual_index names.now.classes.tree.now) },
}

/// Of the numbers of a class's methods those of the virtual ones.
fn virtual_numbers(
    alloc: Global,
    table: &ClassTable,
    numbers: &[usize],
) -> Result<Vec<usize>, NoMemory>
    requires { length numbers.now ≡ length (declaration_in table.now.class).methods }
    ensures { IfOk result (λ v. (number : MethodIdentity → ℕ) → numbers.now ≡ map (λ m. number (identity_of m)) (declaration_in table.now.class).methods → v.items ≡ map number (virtuals_of (declaration_in table.now.class))) }
{
    let mut chosen = Vec::new(alloc);
    for index in 0..numbers.len() {
        if table.is_virtual_at(index) {
            chosen.push(numbers[index])?;
        }
    }
    Ok(chosen)
}

fn virtual_rows(
    alloc: Global,
    tables: &[ClassTable],
    numbers: &[Vec<usize>],
) -> Result<Vec<Vec<usize>>, NoMemory>
    requires { map (λ r. length r.items) numbers.now ≡ map (λ t. length (declaration_in t.class).methods) tables.now }
    ensures { IfOk result (λ v. (number : MethodIdentity → ℕ) → map (λ r. r.items) numbers.now ≡ map (λ t. map (λ m. number (identity_of m)) (declaration_in t.class).methods) tables.now → map (λ r. r.items) v.items ≡ map (λ t. map number (virtuals_of (declaration_in t.class))) tables.now) }
{
    let mut rows = Vec::with_capacity(alloc, tables.len())?;
    for index in 0..tables.len() {
        let own = numbers[index].as_slice();
        rows.push(virtual_numbers(alloc, &tables[index], own)?)?;
    }
    Ok(rows)
}

/// The virtual methods of all classes by the numbers of their names and signatures.
fn all_virtual(alloc: Global, names: &NameTables) -> Result<Inherited<usize>, NoMemory>
    ensures { IfOk result (λ t. IsMemberTable names.now.classes.tree.now t.inheritance.forest (virtual_number names.now.methods.keys t.keys) (virtual_index names.now.classes.tree.now)) }
{
    let numbers = names.methods.inheritance.forest.declared.as_slice();
    let rows = virtual_rows(alloc, names.classes.all(), numbers)?;
    let most = names.classes.longest_chain();
    Inherited::new(alloc, names.bases(), rows.as_slice(), most)
}

/// Whether a class from one on declares a virtual method of this number. An error exactly where its bases do not end.
fn finds(overridable: &Inherited<usize>, class: ClassId, number: usize) -> Result<bool, Cyclic>
    ensures found { IfOk result (λ found. found ≡ is_some (nearest_from overridable.now.inheritance.forest (number_in (λ a b. a == b) overridable.now.keys number) overridable.now.inheritance.forest.most (Some class))) }
    ensures ended { OnOk result (Ends overridable.now.inheritance.forest.bases.items overridable.now.inheritance.forest.most class) }
    ensures cyclic { OnErr result (¬ Ends overridable.now.inheritance.forest.bases.items overridable.now.inheritance.forest.most class) }
{
    match overridable.nearest(class, number) {
        Ok(found) => Ok(found.is_some()),
        Err(Cyclic) => Err(Cyclic),
    }
}

/// The first of these numbers of which no class from one on declares a virtual method. An error exactly where its bases do not end and
/// there is such a number.
fn first_missing(
    overridable: &Inherited<usize>,
    class: ClassId,
    numbers: &[usize],
) -> Result<Option<usize>, Cyclic>
    ensures found { IfOk result (λ index. is_none index ≡ list_all (λ n. is_some (nearest_from overridable.now.inheritance.forest (number_in (λ a b. a == b) overridable.now.keys n) overridable.now.inheritance.forest.most (Some class))) numbers.now) }
    ensures ended { OnOk result (0 < length numbers.now → Ends overridable.now.inheritance.forest.bases.items overridable.now.inheritance.forest.most class) }
    ensures cyclic { OnErr result (¬ Ends overridable.now.inheritance.forest.bases.items overridable.now.inheritance.forest.most class) }
{
    for index in 0..numbers.len() {
        if !finds(overridable, class, numbers[index])? {
            return Ok(Some(index));
        }
    }
    Ok(None)
}

impl<'a> MethodTables<'a> {
    /// Makes them from the tables of names. The only error is out of memory.
    pub fn new(alloc: Global, names: &'a NameTables<'a>) -> Result<Self, NoMemory>
        ensures { IfOk result (λ t. t.names.now.classes.tree.now ≡ names.now.classes.tree.now) }
    {
        let overridable = all_virtual(alloc, names)?;
        Ok(MethodTables { names, overridable })
    }

    /// The nearest method of this name and signature, from a class on through its bases. An error exactly where they do not end.
    pub fn nearest(&self, class: ClassId, key: MethodKey) -> Result<Option<MethodId>, Cyclic>
        ensures found { IfOk result (λ found. option_map (λ m. (m.class, m.index)) found ≡ nearest_number (method_index self.now.names.now.classes.tree.now (method_of_key key.entry)) (line_of self.now.names.now.classes.tree.now (Some class))) }
        ensures ended { OnOk result (EndsIn self.now.names.now.classes.tree.now class) }
        ensures cyclic { OnErr result (¬ EndsIn self.now.names.now.classes.tree.now class) }
    {
        match self.names.methods.nearest(class, key) {
            Ok(found) => Ok(method_id(found)),
            Err(Cyclic) => Err(Cyclic),
        }
    }

    /// Whether a class, or one of its bases, declares a virtual method of this name and signature. An error exactly where its bases
    /// do not end.
    pub fn has_virtual(&self, class: ClassId, key: MethodKey) -> Result<bool, Cyclic>
        ensures found { IfOk result (λ found. found ≡ is_some (nearest_number (virtual_index self.now.names.now.classes.tree.now (method_of_key key.entry)) (line_of self.now.names.now.classes.tree.now (Some class)))) }
        ensures ended { OnOk result (EndsIn self.now.names.now.classes.tree.now class) }
        ensures cyclic { OnErr result (¬ EndsIn self.now.names.now.classes.tree.now class) }
    {
        match self
            .overridable
            .nearest(class, number_of(&self.names.methods.keys, key))
        {
            Ok(found) => Ok(method_id(found).is_some()),
            Err(Cyclic) => Err(Cyclic),
        }
    }

    /// The numbers of the names and signatures of the methods that a class declares.
    fn key_numbers(&self, class: ClassId) -> &[usize]
        ensures { result.now ≡ slice_index_or (map (λ r. r.items) self.now.names.now.methods.inheritance.forest.declared.items) class [] }
    {
        match self
            .names
            .methods
            .inheritance
            .forest
            .declared
            .get(class.number())
        {
            None => &[],
            Some(numbers) => numbers.as_slice(),
        }
    }

    /// The index of the first method of an interface of whose name and signature no class from one on declares a virtual method. An
    /// error exactly where the class's bases do not end and the interface declares a method.
    pub fn first_absent(&self, interface: ClassId, class: ClassId) -> Result<Option<usize>, Cyclic>
        ensures found { IfOk result (λ index. is_none index ≡ list_all (λ m. is_some (nearest_number (virtual_index self.now.names.now.classes.tree.now (identity_of m)) (line_of self.now.names.now.classes.tree.now (Some class)))) (methods_at self.now.names.now.classes.tree.now interface)) }
        ensures ended { OnOk result (methods_at self.now.names.now.classes.tree.now interface ≢ [] → EndsIn self.now.names.now.classes.tree.now class) }
        ensures cyclic { OnErr result (¬ EndsIn self.now.names.now.classes.tree.now class) }
    {
        let numbers = self.key_numbers(interface);
        match first_missing(&self.overridable, class, numbers) {
            Ok(index) => Ok(index),
            Err(Cyclic) => Err(Cyclic),
        }
    }

    /// Of each class, whether for some method of an interface no class from it on declares a virtual one of that name and signature; so
    /// the result is also true where the class's bases do not end. Takes time with the number of classes, of the interface's methods, and of the
    /// declarations of these, where all bases end. The only error is out of memory.
    pub fn lacks_some(&self, alloc: Global, interface: ClassId) -> Result<Vec<bool>, NoMemory>
        ensures width { IfOk result (λ lacking. length lacking.items ≡ length (base_numbers self.now.names.now.classes.tree.now)) }
        ensures reported { IfOk result (λ lacking. (class : ℕ) (b : Bool) → slice_get lacking.items class ≡ Some b → EndsIn self.now.names.now.classes.tree.now class → b ≡ not (list_all (λ m. is_some (nearest_number (virtual_index self.now.names.now.classes.tree.now (identity_of m)) (line_of self.now.names.now.classes.tree.now (Some class)))) (methods_at self.now.names.now.classes.tree.now interface))) }
        ensures ended { IfOk result (λ lacking. (class : ℕ) → slice_get lacking.items class ≡ Some false → EndsIn self.now.names.now.classes.tree.now class) }
    {
        let numbers = row_numbers(alloc, &self.overridable.keys, self.key_numbers(interface))?;
        self.overridable
            .inheritance
            .finds_nothing(alloc, numbers.as_slice())
    }

    /// Of each class, whether the nearest method of some name and signature is marked, by its class and index; the result is also true where
    /// the class's bases do not end. The only error is out of memory.
    pub fn finds_marked(&self, alloc: Global, marks: &[Vec<bool>]) -> Result<Vec<bool>, NoMemory>
        ensures width { IfOk result (λ found. length found.items ≡ length (base_numbers self.now.names.now.classes.tree.now)) }
        ensures marked { IfOk result (λ found. (class : ℕ) → slice_get found.items class ≡ Some true → EndsIn self.now.names.now.classes.tree.now class → (k : MethodIdentity) × (is_marked (map (λ v. v.items) marks.now) (nearest_number (method_index self.now.names.now.classes.tree.now k) (line_of self.now.names.now.classes.tree.now (Some class))) ≡ true)) }
        ensures unmarked { IfOk result (λ found. (class : ℕ) (k : MethodIdentity) → slice_get found.items class ≡ Some false → is_marked (map (λ v. v.items) marks.now) (nearest_number (method_index self.now.names.now.classes.tree.now k) (line_of self.now.names.now.classes.tree.now (Some class))) ≡ false) }
        ensures ended { IfOk result (λ found. (class : ℕ) → slice_get found.items class ≡ Some false → EndsIn self.now.names.now.classes.tree.now class) }
    {
        self.names.methods.inheritance.finds_marked(alloc, marks)
    }
}
