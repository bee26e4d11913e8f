//! Which classes leave no slot open to an abstract method, found in one walk over all classes.

ghost use Rattle.std.specs.Prelude.{◌≡◌, ℕ, true, false, Some, IfOk, map, slice_get};
ghost use Rattle.std.specs.List.{list_any};
ghost use Rattle.std.specs.Option.{option_map_or};
ghost use Rattle.cil_model.specs.Chains.{is_abstract_method};
ghost use Rattle.name_tables.specs.Keys.{method_of_key};
ghost use Rattle.name_tables.specs.Methods.{line_of};
ghost use Rattle.name_tables.specs.Numbers.{method_found};
ghost use Rattle.name_tables.specs.Sameness.{MethodIdentity};
ghost use Rattle.resolved_code.specs.VirtualSlots.{is_nearest_abstract, hides_abstract, is_override, IsDecided};
ghost use Rattle.metadata.specs.OpenSlots.{marks_in, hides_one, AreClear, AreDecided};

use cil_model::memory::NoMemory;
use cil_model::trees::Method;
use inheritance::{Cyclic, classes_in_topological_order};
use name_tables::ids::{ClassId, MethodId};
use name_tables::keys::MethodKey;
use name_tables::kinds::{is_abstract_method, is_new_slot_method, is_virtual};
use name_tables::lookups::NameTables;
use name_tables::methods::MethodTables;
use std::alloc::Global;

/// The methods of classes, and of which classes it is known that they leave no slot open.
#[derive(Drop)]
pub struct OpenSlots<'a> {
    pub methods: &'a MethodTables<'a>,
    decided: Vec<bool>,
    ghost are_decided: { AreDecided methods.now.names.now.classes.tree.now decided.items },
}

/// Whether a virtual method is without newslot, so that it fills the slot of the next virtual one after it (ECMA-335 II.10.3.1).
fn is_override(method: &Method) -> bool
    ensures { result ≡ is_override method.now }
{
    is_virtual(&method.kind) && !is_new_slot_method(&method.kind)
}

/// Whether each of these methods is abstract.
fn marks_of(alloc: Global, methods: &[&Method]) -> Result<Vec<bool>, NoMemory>
    ensures { IfOk result (λ v. v.items ≡ map (λ m. is_abstract_method m.kind) (map (λ m. m.now) methods.now)) }
{
    let mut marks = Vec::new(alloc);
    for method in methods {
        marks.push(is_abstract_method(&method.kind))?;
    }
    Ok(marks)
}

/// Whether each method of each class is abstract.
fn abstract_marks(alloc: Global, names: &NameTables) -> Result<Vec<Vec<bool>>, NoMemory>
    ensures { IfOk result (λ v. map (λ row. row.items) v.items ≡ marks_in names.now.classes.tree.now) }
{
    let mut rows = Vec::new(alloc);
    for table in names.classes.all() {
        rows.push(marks_of(alloc, table.class.methods.as_slice())?)?;
    }
    Ok(rows)
}

/// Whether the method of this name and signature of a class is abstract.
fn is_abstract_at(names: &NameTables, key: MethodKey, class: ClassId) -> bool
    ensures { result ≡ option_map_or (λ m. is_abstract_method m.kind) (method_found names.now.classes.tree.now (method_of_key key.entry) class) false }
{
    match names.classes.method(class, key) {
        None => false,
        Some(method) => is_abstract_method(&method.kind),
    }
}

/// Whether the method of this name and signature of the class that a look-up found is abstract.
fn is_abstract_found(names: &NameTables, key: MethodKey, found: Option<MethodId>) -> bool
    ensures { result ≡ option_map_or (λ f. option_map_or (λ m. is_abstract_method m.kind) (method_found names.now.classes.tree.now (method_of_key key.entry) f.class) false) found false }
{
    match found {
        None => false,
        Some(found) => is_abstract_at(names, key, found.class),
    }
}

/// Whether the nearest method of this name and signature, from a class on, may be abstract.
fn may_be_top(methods: &MethodTables, class: &Option<ClassId>, key: MethodKey) -> bool
    ensures { result ≡ false → is_nearest_abstract methods.now.names.now.classes.tree.now (method_of_key key.entry) (line_of methods.now.names.now.classes.tree.now class.now) ≡ false }
{
    let Some(class) = class else {
        return false;
    };
    match methods.nearest(*class, key) {
        Ok(found) => is_abstract_found(methods.names, key, found),
        Err(Cyclic) => true,
    }
}

/// Whether one of the methods of a class may hide an abstract one, from the class's base on.
fn may_hide_one(methods: &MethodTables, base: &Option<ClassId>, own: &[&Method]) -> bool
    ensures { result ≡ false → list_any (hides_one methods.now.names.now.classes.tree.now (line_of methods.now.names.now.classes.tree.now base.now)) (map (λ m. m.now) own.now) ≡ false }
{
    for method in own {
        if !is_override(method) {
            let key = MethodKey::new(&method.name, &method.signature);
            if may_be_top(methods, base, key) {
                return true;
            }
        }
    }
    false
}

/// Whether a class is marked false.
fn is_reported_false(reported: &[bool], class: ClassId) -> bool
    ensures { result ≡ true → slice_get reported.now class ≡ Some false }
{
    match reported.get(class.number()) {
        None => false,
        Some(answer) => !*answer,
    }
}

/// Whether a class, where there is one, is marked as hiding nothing.
fn is_clear(may_hide: &[bool], class: &Option<ClassId>) -> bool
    ensures { result ≡ true → (n : ℕ) → class.now ≡ Some n → slice_get may_hide.now n ≡ Some false }
{
    match class {
        None => true,
        Some(class) => is_reported_false(may_hide, *class),
    }
}

/// Whether a class hides no abstract method along its bases, where that is known of its base.
fn stays_clear(methods: &MethodTables, may_hide: &[bool], class: ClassId) -> bool
    requires { AreClear methods.now.names.now.classes.tree.now may_hide.now }
    ensures { result ≡ true → (k : MethodIdentity) → hides_abstract methods.now.names.now.classes.tree.now k (line_of methods.now.names.now.classes.tree.now (Some class)) ≡ false }
{
    let names = methods.names;
    let base = names.base(class);
    if !names.ends(class) {
        return false;
    }
    if !is_clear(may_hide, &base) {
        return false;
    }
    match names.classes.class(class) {
        None => false,
        Some(declared) => !may_hide_one(methods, &base, declared.methods.as_slice()),
    }
}

/// Of each class, whether it may hide an abstract method along its bases. The only error is out of memory.
fn hiding_classes(alloc: Global, methods: &MethodTables) -> Result<Vec<bool>, NoMemory>
    ensures { IfOk result (λ v. AreClear methods.now.names.now.classes.tree.now v.items) }
{
    let bases = methods.names.bases();
    let classes = classes_in_topological_order(alloc, bases)?;
    let count = bases.len();
    let mut may_hide = vec![in alloc; true; count]?;
    for index in 0..classes.len() {
        let class = classes[index];
        if class >= may_hide.len() {
            continue;
        }
        if !stays_clear(methods, may_hide.as_slice(), ClassId::new(class)) {
            continue;
        }
        may_hide[class] = false;
    }
    Ok(may_hide)
}

/// Whether a class is marked false in both.
fn is_neither(first: &[bool], second: &[bool], class: ClassId) -> bool
    ensures first { result ≡ true → slice_get first.now class ≡ Some false }
    ensures second { result ≡ true → slice_get second.now class ≡ Some false }
{
    is_reported_false(first, class) && is_reported_false(second, class)
}

/// Of each class, whether it is known that no slot is left open along its bases. The only error is out of memory.
fn decided_classes(alloc: Global, methods: &MethodTables) -> Result<Vec<bool>, NoMemory>
    ensures { IfOk result (λ v. AreDecided methods.now.names.now.classes.tree.now v.items) }
{
    let marks = abstract_marks(alloc, methods.names)?;
    let may_stay = methods.finds_marked(alloc, marks.as_slice())?;
    let may_hide = hiding_classes(alloc, methods)?;
    let mut decided = Vec::new(alloc);
    for class in 0..may_stay.len() {
        decided.push(is_neither(
            may_stay.as_slice(),
            may_hide.as_slice(),
            ClassId::new(class),
        ))?;
    }
    Ok(decided)
}

impl<'a> OpenSlots<'a> {
    /// Looks at all classes. Takes time with the number of classes and methods, but for logarithms. The only error is out of memory.
    pub fn new(alloc: Global, methods: &'a MethodTables<'a>) -> Result<Self, NoMemory>
        ensures { IfOk result (λ s. s.methods.now.names.now.classes.tree.now ≡ methods.now.names.now.classes.tree.now) }
    {
        let decided = decided_classes(alloc, methods)?;
        Ok(OpenSlots { methods, decided })
    }

    /// Whether it is known that a class leaves no slot open along its bases.
    pub fn is_decided(&self, class: ClassId) -> bool
        ensures { result ≡ true → IsDecided self.now.methods.now.names.now.classes.tree.now (line_of self.now.methods.now.names.now.classes.tree.now (Some class)) }
    {
        match self.decided.get(class.number()) {
            None => false,
            Some(decided) => *decided,
        }
    }

    /// Whether a method of a class is abstract, and the nearest of its name and signature from the first class on.
    fn is_top(&self, first: ClassId, class: ClassId, method: &Method) -> bool {
        if !is_abstract_method(&method.kind) {
            return false;
        }
        let key = MethodKey::new(&method.name, &method.signature);
        match self.methods.nearest(first, key) {
            Ok(Some(found)) => found.class == class,
            _ => false,
        }
    }

    /// Whether a class has an abstract method that is nearest from the first class on.
    fn has_top(&self, first: ClassId, class: ClassId) -> bool {
        let Some(declared) = self.methods.names.classes.class(class) else {
            return false;
        };
        for method in declared.methods.as_slice() {
            if self.is_top(first, class, method) {
                return true;
            }
        }
        false
    }

    /// The class of the abstract method that one hides from its class's base on, where there is one.
    fn hidden_by(&self, base: ClassId, method: &Method) -> Option<ClassId> {
        if is_override(method) {
            return None;
        }
        let key = MethodKey::new(&method.name, &method.signature);
        match self.methods.nearest(base, key) {
            Ok(Some(found)) if is_abstract_at(self.methods.names, key, found.class) => {
                Some(found.class)
            }
            _ => None,
        }
    }

    /// The class of an abstract method that a method of a class hides, where there is one.
    fn hidden_after(&self, class: ClassId) -> Option<ClassId> {
        let names = self.methods.names;
        let declared = names.classes.class(class)?;
        let base = names.base(class)?;
        for method in declared.methods.as_slice() {
            if let Some(hidden) = self.hidden_by(base, method) {
                return Some(hidden);
            }
        }
        None
    }

    /// The first of these classes with an abstract method that is not overridden.
    fn first_top(&self, chain: &[ClassId]) -> Option<ClassId> {
        let first = *chain.first()?;
        for class in chain {
            if self.has_top(first, *class) {
                return Some(*class);
            }
        }
        None
    }

    /// The class of the nearest abstract method along these classes that is hidden.
    fn first_hidden(&self, chain: &[ClassId]) -> Option<ClassId> {
        for class in chain {
            if let Some(hidden) = self.hidden_after(*class) {
                return Some(hidden);
            }
        }
        None
    }

    /// The class that seems to leave a slot open along these classes: the nearest with an abstract method that is not overridden, or otherwise
    /// one with an abstract method that is hidden. Its contract says nothing: the caller tests the methods of the class.
    pub fn suspect(&self, chain: &[ClassId]) -> Option<ClassId> {
        match self.first_top(chain) {
            None => self.first_hidden(chain),
            Some(top) => Some(top),
        }
    }
}
