//! Fields, methods and bodies by numbers.

ghost use Rattle.std.specs.Prelude.{◌≡◌, option_map};
ghost use Rattle.cil_model.specs.Bodies.{code_of};
ghost use Rattle.resolved_code.specs.Outcomes.{Gives};
ghost use Rattle.resolved_code.specs.Rules.{body_rule, kind_rule, resolved_method_rule, resolved_field_rule};

use crate::classes::{Body, ResolvedField, ResolvedKind, ResolvedMethod};
use crate::errors::ResolveError;
use crate::instructions::{BodyResolver, Resolver};
use crate::items::{Resolve, resolve_all};
use crate::labels::Labels;
use crate::numbering::resolved_return;
use cil_model::trees::{Code, Field, Method, MethodKind};
use name_tables::lookups::NameTables;
use std::alloc::Global;

/// A field is resolved to the field by number (ECMA-335 II.16).
impl<'a, 'b> Resolve<&'b Field> for NameTables<'a> {
    type Resolved = ResolvedField;

    ghost rule = { λ names field. resolved_field_rule names.classes.tree.now field.now };

    fn resolve(&self, alloc: Global, field: &&'b Field) -> Result<ResolvedField, ResolveError> {
        Ok(ResolvedField {
            is_static: field.is_static,
            field_type: self.resolve(alloc, &field.field_type)?,
        })
    }
}

impl<'a> Resolver<'a> {
    /// A body (ECMA-335 II.15.4), by the labels of its lines. The errors are a name that refers to nothing, and out of memory.
    fn body(&self, alloc: Global, labels: &Labels, code: &Code) -> Result<Body, ResolveError>
        requires { labels.now.lines.now ≡ code.now.lines }
        ensures { Gives result (body_rule self.now.names.now.classes.tree.now code.now) }
    {
        let resolver = BodyResolver {
            resolver: self,
            labels,
        };
        Ok(Body {
            max_stack: code.max_stack,
            locals: resolve_all(alloc, self.names, code.locals.as_slice())?,
            operations: resolve_all(alloc, &resolver, code.lines.as_slice())?,
        })
    }

    /// What a method is (ECMA-335 II.15.2). The errors are a name that refers to nothing, and out of memory.
    fn kind(
        &self,
        alloc: Global,
        labels: &Labels,
        kind: &MethodKind,
    ) -> Result<ResolvedKind, ResolveError>
        requires { option_map (λ code. code.lines) (code_of kind.now) ≡ option_map (λ code. labels.now.lines.now) (code_of kind.now) }
        ensures { Gives result (kind_rule self.now.names.now.classes.tree.now kind.now) }
    {
        Ok(match kind {
            MethodKind::Static(code) => ResolvedKind::Static(self.body(alloc, labels, code)?),
            MethodKind::Instance(code) => ResolvedKind::Instance(self.body(alloc, labels, code)?),
            MethodKind::Virtual { is_new_slot, code } => ResolvedKind::Virtual {
                is_new_slot: *is_new_slot,
                body: self.body(alloc, labels, code)?,
            },
            MethodKind::Abstract { is_new_slot } => ResolvedKind::Abstract {
                is_new_slot: *is_new_slot,
            },
        })
    }
}

/// A method is resolved to the method by numbers (ECMA-335 II.15).
impl<'a, 'b> Resolve<&'b Method> for Resolver<'a> {
    type Resolved = ResolvedMethod;

    ghost rule = { λ r method. resolved_method_rule r.names.now.classes.tree.now method.now };

    fn resolve(&self, alloc: Global, method: &&'b Method) -> Result<ResolvedMethod, ResolveError> {
        let signature = &method.signature;
        let parameters = resolve_all(alloc, self.names, signature.parameters.as_slice())?;
        let return_type = resolved_return(self.names, &signature.return_type)?;
        let labels = Labels::new(alloc, method)?;
        let kind = self.kind(alloc, &labels, &method.kind)?;
        Ok(ResolvedMethod {
            identity: self.identities.number(method),
            parameters,
            return_type,
            kind,
        })
    }
}
