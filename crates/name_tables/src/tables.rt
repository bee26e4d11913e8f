//! Every class of a tree with its members, found by name and by number.

ghost use Rattle.std.specs.Prelude.{◌≡◌, ◌++◌, ◌∷◌, [], IfOk, map, option_map, option_and_then, slice_get};
ghost use Rattle.cil_model.specs.Declarations.{built_ins, declaration_of};
ghost use Rattle.cil_model.specs.Chains.{longest_chain};
ghost use Rattle.name_tables.specs.BuiltInTable.{built_in_entry};
ghost use Rattle.name_tables.specs.Entries.{declaration_in, entry_of};
ghost use Rattle.name_tables.specs.Keys.{class_of_key, method_of_key};
ghost use Rattle.name_tables.specs.Numbers.{source_entry, declarations, class_number, method_found};

use crate::built_in::BuiltInClass;
use crate::class_tables::ClassTable;
use crate::classes::DeclaredClass;
use crate::ids::ClassId;
use crate::key_indices::KeyIndices;
use crate::keys::{ClassKey, MethodKey};
use cil_model::memory::NoMemory;
use cil_model::trees::{Method, Tree};
use std::alloc::Global;

/// Every class that a name may refer to: the built-in ones, then those of the source, in order. A class's number is its
/// index in this list.
pub struct ClassTables<'a> {
    pub tree: &'a Tree,
    classes: Vec<ClassTable<'a>>,
    names: KeyIndices<ClassKey<'a>>,
    ghost classes_are: { map (λ t. entry_of t.class) classes.items ≡ declarations tree.now },
    ghost names_are: { map class_of_key names ≡ map (λ e. e.0) (declarations tree.now) },
}

/// Each part is dropped.
impl Drop for ClassTables<'_> {
    fn drop(self) {
        let ClassTables {
            tree: _tree,
            classes: _classes,
            names: _names,
        } = self;
    }
}

/// Adds a class with where its methods are found.
fn add_table<'a>(
    alloc: Global,
    classes: &mut Vec<ClassTable<'a>>,
    class: DeclaredClass<'a>,
) -> Result<(), NoMemory>
    ensures { IfOk result (λ _. map (λ t. entry_of t.class) classes.new.items ≡ map (λ t. entry_of t.class) classes.old.items ++ entry_of class.entry ∷ []) }
{
    let table = ClassTable::new(alloc, class)?;
    classes.push(table)?;
    Ok(())
}

fn class_tables<'a>(
    alloc: Global,
    tree: &'a Tree,
    table: &'a [BuiltInClass],
) -> Result<Vec<ClassTable<'a>>, NoMemory>
    ensures { IfOk result (λ v. map (λ t. entry_of t.class) v.items ≡ map built_in_entry table.now ++ map source_entry tree.now.classes) }
{
    let mut classes = Vec::new(alloc);
    for class in table {
        add_table(
            alloc,
            &mut classes,
            DeclaredClass::of_built_in(alloc, class)?,
        )?;
    }
    for class in tree.classes.as_slice() {
        add_table(alloc, &mut classes, DeclaredClass::of_source(alloc, class)?)?;
    }
    Ok(classes)
}

fn class_keys<'a>(alloc: Global, classes: &[ClassTable<'a>]) -> Result<Vec<ClassKey<'a>>, NoMemory>
    ensures { IfOk result (λ v. map class_of_key v.items ≡ map (λ e. e.0) (map (λ t. entry_of t.class) classes.now)) }
{
    let mut keys = Vec::new(alloc);
    for class in classes {
        keys.push(class.class.name)?;
    }
    Ok(keys)
}

impl<'a> ClassTables<'a> {
    /// Makes the tables of a tree from it and the built-in classes. The only error is out of memory.
    pub fn new(alloc: Global, tree: &'a Tree, table: &'a [BuiltInClass]) -> Result<Self, NoMemory>
        requires { map built_in_entry table.now ≡ built_ins }
        ensures { IfOk result (λ t. t.tree.now ≡ tree.now) }
    {
        let classes = class_tables(alloc, tree, table)?;
        let names = KeyIndices::new(alloc, class_keys(alloc, classes.as_slice())?)?;
        Ok(ClassTables {
            tree,
            classes,
            names,
        })
    }

    /// The classes with their members, by number.
    pub fn all(&self) -> &[ClassTable<'a>]
        ensures { map (λ t. entry_of t.class) result.now ≡ declarations self.now.tree.now }
    {
        self.classes.as_slice()
    }

    /// The names of the classes, by number.
    pub fn names(&self) -> &[ClassKey<'a>]
        ensures { map class_of_key result.now ≡ map (λ e. e.0) (declarations self.now.tree.now) }
    {
        self.names.keys()
    }

    /// The id of the class that a name refers to.
    pub fn id(&self, name: ClassKey) -> Option<ClassId>
        ensures { result ≡ class_number self.now.tree.now (class_of_key name.entry) }
    {
        let number = self.names.first(name)?;
        Some(ClassId::new(number))
    }

    /// What a class declares.
    pub fn class(&self, class: ClassId) -> Option<&DeclaredClass<'a>>
        ensures { option_map (λ d. entry_of d.now) result ≡ slice_get (declarations self.now.tree.now) class }
    {
        match self.classes.get(class.number()) {
            None => None,
            Some(table) => Some(&table.class),
        }
    }

    /// The base that a class names.
    pub fn base(&self, class: ClassId) -> Option<ClassKey<'a>>
        ensures { option_map class_of_key result ≡ option_and_then (λ e. e.1.base) (slice_get (declarations self.now.tree.now) class) }
    {
        let base = self.class(class)?.base?;
        Some(ClassKey::of(base))
    }

    /// The base of a class.
    pub(crate) fn base_id(&self, class: ClassId) -> Option<ClassId>
        ensures { result ≡ option_and_then (class_number self.now.tree.now) (option_and_then (λ e. e.1.base) (slice_get (declarations self.now.tree.now) class)) }
    {
        match self.base(class) {
            None => None,
            Some(base) => self.id(base),
        }
    }

    /// What the class that a name refers to declares.
    pub fn declared_class(&self, name: ClassKey) -> Option<&DeclaredClass<'a>>
        ensures { option_map (λ d. declaration_in d.now) result ≡ declaration_of self.now.tree.now (class_of_key name.entry) }
    {
        match self.id(name) {
            None => None,
            Some(class) => self.class(class),
        }
    }

    /// The first method of a class with this name and signature.
    pub fn method(&self, class: ClassId, key: MethodKey) -> Option<&'a Method>
        ensures { option_map (λ m. m.now) result ≡ method_found self.now.tree.now (method_of_key key.entry) class }
    {
        match self.classes.get(class.number()) {
            None => None,
            Some(table) => table.method(key),
        }
    }

    /// No chain without a cycle has more classes: those of the source, and three built-in ones.
    pub fn longest_chain(&self) -> usize
        ensures { result ≡ longest_chain self.now.tree.now }
    {
        self.tree.classes.as_slice().len() + 3
    }
}
