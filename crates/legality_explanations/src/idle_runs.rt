//! Methods `Run` of classes of threads that no thread runs.

use crate::sites::{MemberSpot, class_key};
use source_positions::cil_model::instructions::MethodName;
use source_positions::cil_model::memory::NoMemory;
use source_positions::cil_model::trees::{Class, Member, Method, MethodKind, Tree};
use source_positions::name_tables::built_in::BuiltInClass;
use source_positions::name_tables::ids::ClassId;
use source_positions::name_tables::keys::{ClassKey, MethodKey};
use source_positions::name_tables::lookups::NameTables;
use source_positions::{MethodText, Named, offset_of};
use std::alloc::Global;
use std::fmt;

/// A method `Run` of a class that extends `Cilvm.Thread`, which does not override that of `Cilvm.Thread`.
#[derive(Clone, Copy)]
struct IdleRun<'a> {
    class: &'a str,
    method: MethodKey<'a>,
}

impl fmt::Display for IdleRun<'_> {
    fn fmt<W: fmt::Write>(&self, f: &mut fmt::Formatter<W>) -> fmt::Result {
        let class = self.class;
        let method = MethodText(self.method);
        write!(
            f,
            "note: `{method}` of `{class}` does not override `void Run()` of `[cilvm]Cilvm.Thread`, which a started thread runs"
        )
    }
}

/// Whether a class is `Cilvm.Thread`.
fn is_thread(names: &NameTables, class: ClassId) -> bool {
    match class_key(names, class) {
        Some(
            ClassKey {
                assembly: Some(assembly),
                name,
            },
        ) => assembly.as_str() == "cilvm" && name.as_str() == "Cilvm.Thread",
        _ => false,
    }
}

/// Whether a class of the source extends `Cilvm.Thread`.
fn extends_thread(names: &NameTables, class: &Class) -> bool {
    let mut next = names.classes.id(ClassKey::of_source(class));
    for _ in 0..names.classes.longest_chain() {
        let Some(number) = next else {
            return false;
        };
        if is_thread(names, number) {
            return true;
        }
        next = names.base(number);
    }
    false
}

fn is_run(method: &Method) -> bool {
    match &method.name {
        MethodName::Named(name) => name.as_str() == "Run",
        MethodName::Constructor => false,
    }
}

/// Whether a method `Run` overrides that of `Cilvm.Thread`.
fn overrides_run(method: &Method) -> bool {
    let is_override = matches!(
        method.kind,
        MethodKind::Virtual {
            is_new_slot: false,
            ..
        } | MethodKind::Abstract { is_new_slot: false }
    );
    let signature = &method.signature;
    is_override && signature.parameters.as_slice().is_empty() && signature.return_type.is_none()
}

/// The last method `Run` of a class, and its number among the members, where none of them overrides that of `Cilvm.Thread`.
fn idle_run(class: &Class) -> Option<(usize, &Method)> {
    let mut idle = None;
    for (member, item) in class.members.as_slice().iter().enumerate() {
        match item {
            Member::Method(method) if is_run(method) => {
                if overrides_run(method) {
                    return None;
                }
                idle = Some((member, method));
            }
            _ => {}
        }
    }
    idle
}

/// Adds a note on a method `Run`, if a class has one that no thread runs.
fn push_idle_run(
    alloc: Global,
    notes: &mut String,
    named: Named,
    number: usize,
    class: &Class,
) -> Result<(), NoMemory> {
    let Some((member, method)) = idle_run(class) else {
        return Ok(());
    };
    let spot = MemberSpot {
        class: number,
        member,
    };
    let run = IdleRun {
        class: class.name.as_str(),
        method: MethodKey::new(&method.name, &method.signature),
    };
    let offset = offset_of(named.text, spot.name());
    let sentence = run.to_string(alloc)?;
    named.push_where(notes, offset, sentence.as_str())?;
    writeln!(
        notes,
        "help: write `.method public virtual instance void Run()`"
    )?;
    Ok(())
}

/// A note on each class of a tree that extends `Cilvm.Thread` and has methods `Run`, none of which overrides that of `Cilvm.Thread`, at the
/// last of them; an empty text where there is no such class. Fails only when out of memory.
pub fn notes_on_runs(alloc: Global, named: Named, tree: &Tree) -> Result<String, NoMemory> {
    let table = BuiltInClass::all(alloc)?;
    let names = NameTables::new(alloc, tree, table.as_slice())?;
    let mut notes = String::new(alloc);
    for (number, class) in tree.classes.as_slice().iter().enumerate() {
        if extends_thread(&names, class) {
            push_idle_run(alloc, &mut notes, named, number, class)?;
        }
    }
    Ok(notes)
}
