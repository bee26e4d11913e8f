//! Laws of frames. Each function has an empty body, and its contract is the law.

ghost use Rattle.std.specs.Prelude.{◌≡◌, map};
ghost use Rattle.object_memory.specs.declared.addresses.Addr.{Addr};
ghost use Rattle.threads_monitors.specs.Frames.{Frames};
ghost use Rattle.threads_monitors.specs.Roots.{roots, with_references};

/// Once its references are replaced, a thread has the roots by which they were replaced, in the order in which they were.
pub fn replaced_roots_keep_their_order()
    ensures { (g : Addr → Addr) (m : Frames) → roots (with_references g m) ≡ map g (roots m) }
{}
