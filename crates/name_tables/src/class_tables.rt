//! A class with where each of its methods is found.

ghost use Rattle.std.specs.Prelude.{◌≡◌, ◌<◌, IfOk, Some, length, map, find, option_map, slice_get};
ghost use Rattle.name_tables.specs.Entries.{declaration_in};
ghost use Rattle.name_tables.specs.Keys.{method_of_key};
ghost use Rattle.name_tables.specs.Methods.{has_virtual};
ghost use Rattle.name_tables.specs.Sameness.{same_identity, identity_of};

use crate::classes::DeclaredClass;
use crate::key_indices::KeyIndices;
use crate::keys::MethodKey;
use crate::kinds::is_virtual;
use cil_model::memory::NoMemory;
use cil_model::trees::Method;
use std::alloc::Global;

/// A class, with its methods by hash.
#[derive(Drop)]
pub struct ClassTable<'a> {
    pub class: DeclaredClass<'a>,
    methods: KeyIndices<MethodKey<'a>>,
    ghost methods_are: { map method_of_key methods ≡ map identity_of (declaration_in class).methods },
}

/// The keys of methods, in their order. The only error is out of memory.
pub fn method_keys<'a>(
    alloc: Global,
    methods: &[&'a Method],
) -> Result<Vec<MethodKey<'a>>, NoMemory>
    ensures { IfOk result (λ v. map method_of_key v.items ≡ map identity_of (map (λ m. m.now) methods.now)) }
{
    let mut keys = Vec::new(alloc);
    for method in methods {
        keys.push(MethodKey::new(&method.name, &method.signature))?;
    }
    Ok(keys)
}

fn method_at<'a>(methods: &[&'a Method], index: usize) -> Option<&'a Method>
    ensures { result ≡ slice_get methods.now index }
{
    methods.get(index).copied()
}

impl<'a> ClassTable<'a> {
    /// Notes the first index of each method of a class. The only error is out of memory.
    pub fn new(alloc: Global, class: DeclaredClass<'a>) -> Result<Self, NoMemory>
        ensures { IfOk result (λ t. t.class ≡ class.entry) }
    {
        let methods = KeyIndices::new(alloc, method_keys(alloc, class.methods.as_slice())?)?;
        Ok(ClassTable { class, methods })
    }

    /// Whether the first method of the name and signature of the one at an index is virtual.
    pub(crate) fn is_virtual_at(&self, index: usize) -> bool
        requires { index < length (declaration_in self.now.class).methods }
        ensures { option_map (λ m. has_virtual (declaration_in self.now.class) (identity_of m)) (slice_get (declaration_in self.now.class).methods index) ≡ Some result }
    {
        match method_at(self.class.methods.as_slice(), self.methods.numbers()[index]) {
            None => false,
            Some(method) => is_virtual(&method.kind),
        }
    }

    /// The first method of this name and signature.
    pub fn method(&self, key: MethodKey) -> Option<&'a Method>
        ensures { option_map (λ m. m.now) result ≡ find (λ m. same_identity (method_of_key key.entry) (identity_of m)) (declaration_in self.now.class).methods }
    {
        match self.methods.first(key) {
            None => None,
            Some(index) => method_at(self.class.methods.as_slice(), index),
        }
    }
}
