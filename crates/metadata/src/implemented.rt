//! The methods of listed interfaces.

ghost use Rattle.std.specs.Prelude.{◌≡◌, IfOk, Some, is_none, is_some, map};
ghost use Rattle.std.specs.List.{list_any, list_all};
ghost use Rattle.cil_model.specs.Chains.{methods_declared};
ghost use Rattle.cil_model.specs.Legality.{implements_all, lacks_implementation};
ghost use Rattle.metadata.specs.InterfaceTables.{has_all_methods, AreTables};
ghost use Rattle.resolved_code.specs.VirtualSlots.{is_virtual_found};
ghost use Rattle.name_tables.specs.Keys.{method_of_key};
ghost use Rattle.name_tables.specs.Methods.{line_of, methods_at};
ghost use Rattle.name_tables.specs.Sameness.{identity_of};

use crate::duplicates::interfaces_named;
use crate::lacking::{is_reported, lacking_tables};
use crate::violations::{ListedMethod, NotImplemented};
use cil_model::memory::NoMemory;
use cil_model::trees::{Class, Method};
use cil_model::types::ClassName;
use inheritance::Cyclic;
use name_tables::ids::ClassId;
use name_tables::keys::{ClassKey, MethodKey};
use name_tables::kinds::is_virtual;
use name_tables::lookups::NameTables;
use name_tables::methods::MethodTables;
use std::alloc::Global;

/// Whether a class has a virtual method of this name and signature.
fn has_virtual(names: &NameTables, class: ClassId, key: MethodKey) -> bool
    ensures { result ≡ is_virtual_found names.now.classes.tree.now (method_of_key key.entry) class }
{
    match names.classes.method(class, key) {
        None => false,
        Some(method) => is_virtual(&method.kind),
    }
}

/// Whether a class from one on along its bases has a virtual method of this name and signature.
fn has_virtual_along(names: &NameTables, first: ClassId, key: MethodKey) -> bool
    ensures { result ≡ list_any (is_virtual_found names.now.classes.tree.now (method_of_key key.entry)) (line_of names.now.classes.tree.now (Some first)) }
{
    let mut next = Some(first);
    let mut left = names.classes.longest_chain();
    while left > 0 {
        let Some(class) = next else {
            return false;
        };
        if has_virtual(names, class, key) {
            return true;
        }
        next = names.base(class);
        left -= 1;
    }
    false
}

/// Whether some class from one on along its bases has a virtual method of this name and signature (ECMA-335 II.12.2). Only where the
/// bases do not end are they followed.
fn implements_method(methods: &MethodTables, class: &Option<ClassId>, key: MethodKey) -> bool
    ensures { result ≡ list_any (is_virtual_found methods.now.names.now.classes.tree.now (method_of_key key.entry)) (line_of methods.now.names.now.classes.tree.now class.now) }
{
    let Some(class) = class else {
        return false;
    };
    match methods.has_virtual(*class, key) {
        Ok(found) => found,
        Err(Cyclic) => has_virtual_along(methods.names, *class, key),
    }
}

/// The first of these methods for which no class from one on has a virtual one.
fn absent_method(
    methods: &MethodTables,
    class: &Option<ClassId>,
    required: &[&Method],
) -> Option<usize>
    ensures { is_none result ≡ list_all (λ m. list_any (is_virtual_found methods.now.names.now.classes.tree.now (identity_of m)) (line_of methods.now.names.now.classes.tree.now class.now)) (map (λ m. m.now) required.now) }
{
    for (index, method) in required.iter().enumerate() {
        let key = MethodKey::new(&method.name, &method.signature);
        if !implements_method(methods, class, key) {
            return Some(index);
        }
    }
    None
}

/// The first method of an interface for which no class from one on has a virtual one, by looking each up by its name.
fn absent_by_name(
    methods: &MethodTables,
    class: &Option<ClassId>,
    interface: ClassId,
) -> Option<usize>
    ensures { is_none result ≡ has_all_methods methods.now.names.now.classes.tree.now class.now interface }
{
    match methods.names.classes.class(interface) {
        None => None,
        Some(declared) => absent_method(methods, class, declared.methods.as_slice()),
    }
}

/// The same; only where the class's bases do not end are the methods looked up by name.
fn absent_at(methods: &MethodTables, class: &Option<ClassId>, interface: ClassId) -> Option<usize>
    ensures { is_none result ≡ has_all_methods methods.now.names.now.classes.tree.now class.now interface }
{
    let Some(first) = class else {
        return absent_by_name(methods, class, interface);
    };
    match methods.first_absent(interface, *first) {
        Ok(index) => index,
        Err(Cyclic) => absent_by_name(methods, class, interface),
    }
}

/// The same; none where the interface's table says of the class that it lacks none.
fn absent_from(
    methods: &MethodTables,
    tables: &[Vec<bool>],
    class: &Option<ClassId>,
    interface: ClassId,
) -> Option<usize>
    requires { AreTables methods.now.names.now.classes.tree.now tables.now }
    ensures { is_none result ≡ has_all_methods methods.now.names.now.classes.tree.now class.now interface }
{
    match class {
        Some(first) if is_reported(tables, *first, interface) => None,
        _ => absent_at(methods, class, interface),
    }
}

/// The first method of an interface for which no class from one on has a virtual one.
fn absent_in(
    methods: &MethodTables,
    tables: &[Vec<bool>],
    class: &Option<ClassId>,
    interface: &ClassName,
) -> Option<usize>
    requires { AreTables methods.now.names.now.classes.tree.now tables.now }
    ensures { is_none result ≡ list_all (λ m. list_any (is_virtual_found methods.now.names.now.classes.tree.now (identity_of m)) (line_of methods.now.names.now.classes.tree.now class.now)) (methods_declared methods.now.names.now.classes.tree.now interface.now) }
{
    match methods.names.classes.id(ClassKey::of(interface)) {
        None => None,
        Some(interface) => absent_from(methods, tables, class, interface),
    }
}

/// The first listed interface with a method for which no class from one on has a virtual one, and that method.
fn absent_in_list(
    methods: &MethodTables,
    tables: &[Vec<bool>],
    class: &Option<ClassId>,
    interfaces: &[ClassName],
) -> Option<ListedMethod>
    requires { AreTables methods.now.names.now.classes.tree.now tables.now }
    ensures { is_none result ≡ list_all (λ i. list_all (λ m. list_any (is_virtual_found methods.now.names.now.classes.tree.now (identity_of m)) (line_of methods.now.names.now.classes.tree.now class.now)) (methods_declared methods.now.names.now.classes.tree.now i)) interfaces.now }
{
    for (interface, name) in interfaces.iter().enumerate() {
        if let Some(method) = absent_in(methods, tables, class, name) {
            return Some(ListedMethod { interface, method });
        }
    }
    None
}

/// The first method of an interface that a class lists for which the class's chain has no virtual one.
fn absent_in_class(
    methods: &MethodTables,
    tables: &[Vec<bool>],
    class: &Class,
) -> Option<ListedMethod>
    requires { AreTables methods.now.names.now.classes.tree.now tables.now }
    ensures { is_none result ≡ implements_all methods.now.names.now.classes.tree.now class.now }
{
    let own = methods.names.classes.id(ClassKey::of_source(class));
    absent_in_list(methods, tables, &own, interfaces_named(&class.kind))
}

/// The first class that lacks a method of an interface that it lists; none where there is none (number 204). The only error is out of
/// memory.
pub fn not_implemented(
    alloc: Global,
    methods: &MethodTables,
) -> Result<Option<NotImplemented>, NoMemory>
    ensures { IfOk result (λ absent. is_some absent ≡ lacks_implementation methods.now.names.now.classes.tree.now) }
{
    let tables = lacking_tables(alloc, methods)?;
    let names = methods.names;
    let classes = names.classes.tree.classes.as_slice();
    for (class, declared) in classes.iter().enumerate() {
        if let Some(listed) = absent_in_class(methods, tables.as_slice(), declared) {
            return Ok(Some(NotImplemented { class, listed }));
        }
    }
    Ok(None)
}
