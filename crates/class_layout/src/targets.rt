//! Which method runs where a method is called on an object of a class (ECMA-335 II.10.3 and II.12.2).

ghost use Rattle.std.specs.Prelude.{◌≡◌, [], IfOk, Some, false, map, slice_get, unwrap_or, option_map, option_and_then};
ghost use Rattle.cil_model.specs.declared.types.ClassName.{ClassName};
ghost use Rattle.cil_model.specs.declared.trees.Method.{Method};
ghost use Rattle.cil_model.specs.Declarations.{Declaration};
ghost use Rattle.name_tables.specs.Numbers.{declarations};
ghost use Rattle.name_tables.specs.Sameness.{MethodIdentity, identity_of};
ghost use Rattle.resolved_code.specs.Identities.{identity_number};
ghost use Rattle.resolved_code.specs.ResolvedPrograms.{AllAlike, AreResolved, IsResolvedMethod};
ghost use Rattle.std.specs.Option.{option_map_or};
ghost use Rattle.class_layout.specs.ByClass.{by_class};
ghost use Rattle.class_layout.specs.Targets.{target_number, target_row, target_rows, targets_of, target_in};

use crate::classes::Classes;
use crate::method_families::MethodFamilies;
use crate::rows::{entry_at, row_at};
use crate::slot_uses::is_virtual;
use cil_model::memory::NoMemory;
use name_tables::ids::{ClassId, MethodId};
use resolved_code::classes::ResolvedMethod;
use std::alloc::Global;

/// The methods that run where one method is called.
#[derive(Drop)]
pub enum Targets {
    /// The method itself, on any object: it is not virtual.
    Itself,
    /// By the number of the object's class.
    ByClass(Vec<Option<MethodId>>),
}

fn is_interface(classes: &Classes, class: ClassId) -> bool
    ensures { result ≡ option_map_or (λ r. r.is_interface) (slice_get classes.now.all.now class) false }
{
    match classes.all.get(class.number()) {
        None => false,
        Some(resolved) => resolved.is_interface,
    }
}

/// The method that runs where a virtual method of a class or interface is called on an object of a class.
fn target_number(methods: &MethodFamilies, class: ClassId, object: ClassId) -> Option<MethodId>
    requires { AreResolved methods.now.classes.now.program.now methods.now.classes.now.all.now }
    ensures { (k : MethodIdentity) (e d : ClassName × Declaration) → identity_number methods.now.classes.now.program.now k ≡ methods.now.identity →
        slice_get (declarations methods.now.classes.now.program.now) class ≡ Some e → slice_get (declarations methods.now.classes.now.program.now) object ≡ Some d → result ≡ target_number methods.now.classes.now.program.now e.0 k d.0 }
{
    let chain = methods.classes.chain(object);
    if is_interface(methods.classes, class) {
        methods.interface_implementation(chain, class)
    } else {
        methods.class_implementation(chain, methods.classes.chain(class))
    }
}

/// The methods that run on objects of each class, where a virtual one of these methods is called.
fn named_row(
    alloc: Global,
    methods: &MethodFamilies,
    class: ClassId,
) -> Result<Vec<Option<MethodId>>, NoMemory>
    requires { AreResolved methods.now.classes.now.program.now methods.now.classes.now.all.now }
    ensures { IfOk result (λ v. (k : MethodIdentity) (e : ClassName × Declaration) → identity_number methods.now.classes.now.program.now k ≡ methods.now.identity →
        slice_get (declarations methods.now.classes.now.program.now) class ≡ Some e → v.items ≡ by_class methods.now.classes.now.program.now (target_number methods.now.classes.now.program.now e.0 k)) }
{
    let mut row = Vec::new(alloc);
    for object in 0..methods.classes.count() {
        row.push(target_number(methods, class, ClassId::new(object)))?;
    }
    Ok(row)
}

fn class_row(
    alloc: Global,
    classes: &Classes,
    class: ClassId,
    method: &ResolvedMethod,
) -> Result<Vec<Option<MethodId>>, NoMemory>
    requires { AreResolved classes.now.program.now classes.now.all.now }
    ensures { IfOk result (λ v. (e : ClassName × Declaration) (m : Method) → slice_get (declarations classes.now.program.now) class ≡ Some e →
        IsResolvedMethod classes.now.program.now m method.now → v.items ≡ by_class classes.now.program.now (target_number classes.now.program.now e.0 (identity_of m))) }
{
    let methods = MethodFamilies::new(alloc, classes, method.identity)?;
    named_row(alloc, &methods, class)
}

fn method_targets(
    alloc: Global,
    classes: &Classes,
    class: ClassId,
    method: &ResolvedMethod,
) -> Result<Targets, NoMemory>
    requires { AreResolved classes.now.program.now classes.now.all.now }
    ensures { IfOk result (λ t. (e : ClassName × Declaration) (m : Method) → slice_get (declarations classes.now.program.now) class ≡ Some e →
        IsResolvedMethod classes.now.program.now m method.now → targets_of t ≡ target_row classes.now.program.now e.0 m) }
{
    if !is_virtual(&method.kind) {
        return Ok(Targets::Itself);
    }
    let row = class_row(alloc, classes, class, method)?;
    Ok(Targets::ByClass(row))
}

/// The methods that run where each of these methods of a class is called.
fn rows_of(
    alloc: Global,
    classes: &Classes,
    class: ClassId,
    methods: &[ResolvedMethod],
) -> Result<Vec<Targets>, NoMemory>
    requires { AreResolved classes.now.program.now classes.now.all.now }
    ensures { IfOk result (λ v. (e : ClassName × Declaration) → slice_get (declarations classes.now.program.now) class ≡ Some e →
        AllAlike (IsResolvedMethod classes.now.program.now) e.1.methods methods.now → map targets_of v.items ≡ map (target_row classes.now.program.now e.0) e.1.methods) }
{
    let mut rows = Vec::new(alloc);
    for index in 0..methods.len() {
        rows.push(method_targets(alloc, classes, class, &methods[index])?)?;
    }
    Ok(rows)
}

/// The methods that run where each method is called, by its class and its index.
pub fn all_targets(alloc: Global, classes: &Classes) -> Result<Vec<Vec<Targets>>, NoMemory>
    requires { AreResolved classes.now.program.now classes.now.all.now }
    ensures { IfOk result (λ v. map (λ row. map targets_of row.items) v.items ≡ by_class classes.now.program.now (target_rows classes.now.program.now)) }
{
    let all = classes.all;
    let mut rows = Vec::new(alloc);
    for class in 0..all.len() {
        let methods = all[class].methods.as_slice();
        rows.push(rows_of(alloc, classes, ClassId::new(class), methods)?)?;
    }
    Ok(rows)
}

/// The method that runs where a method is called on an object of a class.
pub fn target_at(rows: &[Vec<Targets>], class: ClassId, method: MethodId) -> Option<MethodId>
    ensures { result ≡ option_and_then (target_in class method) (option_map targets_of (slice_get (unwrap_or (slice_get (map (λ row. row.items) rows.now) method.class) []) method.index)) }
{
    match row_at(rows, method.class).get(method.index) {
        None => None,
        Some(Targets::Itself) => Some(method),
        Some(Targets::ByClass(row)) => entry_at(row.as_slice(), class),
    }
}
