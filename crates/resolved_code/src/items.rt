//! What all items of a tree represent.

ghost use Rattle.std.specs.Prelude.{map};
ghost use Rattle.resolved_code.specs.Outcomes.{Gives};
ghost use Rattle.resolved_code.specs.Rules.{all_some};

use crate::errors::ResolveError;
use cil_model::sequences::Sequence;
use std::alloc::Global;

/// Where the names in items of a tree are looked up.
pub trait Resolve<T> {
    ghost use Rattle.std.specs.Prelude.{Option};

    type Resolved: Drop;

    ghost rule: { Self → T → Option Self.Resolved };

    /// What an item represents. The errors are a name in it that refers to nothing, and out of memory.
    fn resolve(&self, alloc: Global, item: &T) -> Result<Self::Resolved, ResolveError>
        ensures { Gives result (rule self.now item.now) };
}

/// What each item represents, in their order. The errors are a name in one that refers to nothing, and out of memory.
pub fn resolve_all<T, R: Resolve<T>>(
    alloc: Global,
    resolver: &R,
    items: &[T],
) -> Result<Sequence<R::Resolved>, ResolveError>
    ensures { Gives result (all_some (map (R.rule resolver.now) items.now)) }
{
    let mut resolved = Vec::new(alloc);
    for item in items {
        resolved.push(resolver.resolve(alloc, item)?)?;
    }
    Ok(Sequence::new(resolved))
}
