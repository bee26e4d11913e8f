//! The resolved classes of a tree.

ghost use Rattle.std.specs.Prelude.{◌≡◌, ◌≢◌, IfOk, Err};
ghost use Rattle.cil_model.specs.Legality.{IsLegal};
ghost use Rattle.name_tables.specs.Entries.{declaration_in};
ghost use Rattle.resolved_code.specs.declared.errors.ResolveError.TheVariants.{Unresolved};
ghost use Rattle.resolved_code.specs.ResolvedPrograms.{AreResolved};
ghost use Rattle.resolved_code.specs.Rules.{class_rule};

use crate::classes::ResolvedClass;
use crate::errors::ResolveError;
use crate::identities::Identities;
use crate::instructions::Resolver;
use crate::items::{Resolve, resolve_all};
use crate::literals::Literals;
use crate::numbering::base_id;
use cil_model::sequences::Sequence;
use name_tables::class_tables::ClassTable;
use name_tables::lookups::NameTables;
use std::alloc::Global;

/// A class or interface is resolved to the class by numbers (ECMA-335 II.10).
impl<'a, 'b> Resolve<ClassTable<'b>> for Resolver<'a> {
    type Resolved = ResolvedClass;

    ghost rule = { λ r table. class_rule r.names.now.classes.tree.now (declaration_in table.class) };

    fn resolve(
        &self,
        alloc: Global,
        table: &ClassTable<'b>,
    ) -> Result<ResolvedClass, ResolveError> {
        let class = &table.class;
        Ok(ResolvedClass {
            is_interface: class.is_interface,
            is_abstract: class.is_abstract,
            base: base_id(self.names, class.base)?,
            interfaces: resolve_all(alloc, self.names, class.interfaces)?,
            fields: resolve_all(alloc, self.names, class.fields.as_slice())?,
            methods: resolve_all(alloc, self, class.methods.as_slice())?,
        })
    }
}

/// All classes that a name of the tree may refer to, by their numbers: the built-in ones, then those of the source, in order.
/// The errors are a name of the tree that refers to nothing, so never of a legal tree, and out of memory. The time is linear in
/// the source.
pub fn resolve_classes(
    alloc: Global,
    names: &NameTables,
    literals: &Literals,
) -> Result<Sequence<ResolvedClass>, ResolveError>
    requires { literals.now.tree.now ≡ names.now.classes.tree.now }
    ensures resolved { IfOk result (AreResolved names.now.classes.tree.now) }
    ensures legal { IsLegal names.now.classes.tree.now → result ≢ Err Unresolved }
{
    let identities = Identities::new(alloc, &names.classes)?;
    let resolver = Resolver {
        names,
        literals,
        identities: &identities,
    };
    resolve_all(alloc, &resolver, names.classes.all())
}
