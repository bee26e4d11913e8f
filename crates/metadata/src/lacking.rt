//! The classes that lack a method of an interface, found for all classes at once where many list it.

ghost use Rattle.std.specs.Prelude.{◌≡◌, IfOk, Some, true, false, slice_get};
ghost use Rattle.metadata.specs.InterfaceTables.{IsTable, IsReported, AreTables};

use crate::duplicates::interfaces_named;
use cil_model::memory::NoMemory;
use cil_model::types::ClassName;
use name_tables::classes::DeclaredClass;
use name_tables::ids::ClassId;
use name_tables::keys::ClassKey;
use name_tables::lookups::NameTables;
use name_tables::methods::MethodTables;
use std::alloc::Global;

/// How often interfaces are listed, by their numbers, and how many classes and methods there are. No contract says so: it decides how
/// long the methods of interfaces are looked up, not what is found.
#[derive(Drop)]
struct Listings {
    times: Vec<usize>,
    declarations: usize,
}

fn count_listed(names: &NameTables, interfaces: &[ClassName], times: &mut Vec<usize>) {
    for name in interfaces {
        if let Some(interface) = names.classes.id(ClassKey::of(name)) {
            let number = interface.number();
            if number < times.len() {
                times[number] = times[number].saturating_add(1);
            }
        }
    }
}

fn method_count(class: Option<&DeclaredClass>) -> usize {
    match class {
        None => 0,
        Some(declared) => declared.methods.len(),
    }
}

impl Listings {
    /// The only error is out of memory.
    fn new(alloc: Global, names: &NameTables) -> Result<Self, NoMemory> {
        let count = names.bases().len();
        let mut times = vec![in alloc; 0; count]?;
        for class in names.classes.tree.classes.as_slice() {
            count_listed(names, interfaces_named(&class.kind), &mut times);
        }
        let mut declarations = count;
        for class in 0..count {
            let declared = names.classes.class(ClassId::new(class));
            declarations = declarations.saturating_add(method_count(declared));
        }
        Ok(Listings {
            times,
            declarations,
        })
    }

    /// Whether looking up each method of an interface for each class that lists it takes longer than looking at all classes at once. That
    /// takes some steps for each declaration, of which a look-up takes as long as four.
    fn are_many(&self, names: &NameTables, interface: ClassId) -> bool {
        let methods = method_count(names.classes.class(interface));
        match self.times.get(interface.number()) {
            None => false,
            Some(times) => times.saturating_mul(methods) > self.declarations / 4,
        }
    }
}

/// Of each class, whether it may lack a method of an interface that many list. The table of another interface marks no class. The only
/// error is out of memory.
fn table_of(
    alloc: Global,
    methods: &MethodTables,
    listings: &Listings,
    interface: ClassId,
) -> Result<Vec<bool>, NoMemory>
    ensures { IfOk result (λ table. IsTable methods.now.names.now.classes.tree.now interface table.items) }
{
    if !listings.are_many(methods.names, interface) {
        return Ok(Vec::new(alloc));
    }
    methods.lacks_some(alloc, interface)
}

/// The tables of all interfaces.
fn tables_of(
    alloc: Global,
    methods: &MethodTables,
    listings: &Listings,
) -> Result<Vec<Vec<bool>>, NoMemory>
    ensures { IfOk result (λ tables. AreTables methods.now.names.now.classes.tree.now tables.items) }
{
    let mut tables = Vec::new(alloc);
    for interface in 0..methods.names.bases().len() {
        tables.push(table_of(alloc, methods, listings, ClassId::new(interface))?)?;
    }
    Ok(tables)
}

/// The same for a whole tree. So it takes no time with both the classes that list an interface and its methods. The only error is out of
/// memory.
pub(crate) fn lacking_tables(
    alloc: Global,
    methods: &MethodTables,
) -> Result<Vec<Vec<bool>>, NoMemory>
    ensures { IfOk result (λ tables. AreTables methods.now.names.now.classes.tree.now tables.items) }
{
    let listings = Listings::new(alloc, methods.names)?;
    tables_of(alloc, methods, &listings)
}

fn is_false(table: &[bool], class: ClassId) -> bool
    ensures { result ≡ true → slice_get table.now class ≡ Some false }
{
    match table.get(class.number()) {
        None => false,
        Some(lacks) => !*lacks,
    }
}

/// Whether the table of an interface says of a class that it lacks none of the methods.
pub(crate) fn is_reported(tables: &[Vec<bool>], class: ClassId, interface: ClassId) -> bool
    ensures { result ≡ true → IsReported tables.now class interface }
{
    match tables.get(interface.number()) {
        None => false,
        Some(table) => is_false(table.as_slice(), class),
    }
}
