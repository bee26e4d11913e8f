//! What lies where after a birth, a mark or a store, and that there is room for shells. Each function has an empty body, and its
//! contract is the law.

ghost use Rattle.std.specs.Prelude.{◌≡◌, ◌≢◌, ◌≤◌, ◌+◌, ℕ, length, replicate, Some, None, IsSome};
ghost use Rattle.cil_model.specs.declared.phases.Phase.{Phase};
ghost use Rattle.object_memory.specs.declared.addresses.Addr.{Addr};
ghost use Rattle.object_memory.specs.declared.kinds.Kind.{Kind};
ghost use Rattle.object_memory.specs.declared.monitors.Monitor.{Monitor};
ghost use Rattle.object_memory.specs.Cells.{Cell, Cells, size, used_words, free_words, cell_in, change_in, with_last, store_slot, store_monitor, null, literal, literal_number};
ghost use Rattle.object_memory.specs.Spaces.{Spaces, AreSpaces, IsOffset, BirthSpace, InNew, cell_at, slots_at, change_at, birth_space_of, birth, forward, with_shell, open_cycle, HasShellRoom};
ghost use Rattle.object_memory.specs.Objects.{Objects, with_birth, with_slot, monitor_at, with_monitor};

/// A birth's address is that of a new object, whose slots hold 0 or null. All other objects stay where they are, as they are.
pub fn births_keep_objects()
    ensures own { (m : Spaces) (phase : Phase) (k : Kind) (n : ℕ) (a : Addr) → AreSpaces m → (birth phase m k n).1 ≡ Some a → (c : Cell) × (cell_at (birth phase m k n).0 a ≡ Some c) × (c.kind ≡ k) × (c.slots ≡ replicate n 0) }
    ensures others { (m : Spaces) (phase : Phase) (k : Kind) (n : ℕ) (a : Addr) (c : Cell) → AreSpaces m → cell_at m a ≡ Some c → cell_at (birth phase m k n).0 a ≡ Some c }
{}

/// A store changes the object at its address.
pub fn stores_are_found()
    ensures slot { (m : Spaces) (a : Addr) (c : Cell) (i w : ℕ) → cell_at m a ≡ Some c → cell_at (change_at (store_slot i w) m a) a ≡ Some (store_slot i w c) }
    ensures monitor { (m : Spaces) (a : Addr) (c : Cell) (x : Monitor) → cell_at m a ≡ Some c → cell_at (change_at (store_monitor x) m a) a ≡ Some (store_monitor x c) }
{}

/// A store leaves what lies at each other address.
pub fn stores_keep_others()
    ensures slot { (m : Spaces) (a b : Addr) (i w : ℕ) → a.number ≢ b.number → cell_at (change_at (store_slot i w) m a) b ≡ cell_at m b }
    ensures monitor { (m : Spaces) (a b : Addr) (x : Monitor) → a.number ≢ b.number → cell_at (change_at (store_monitor x) m a) b ≡ cell_at m b }
{}

/// No store changes how many slots there are.
pub fn stores_keep_counts()
    ensures slot { (m : Spaces) (a b : Addr) (i w : ℕ) → length (slots_at (change_at (store_slot i w) m a) b) ≡ length (slots_at m b) }
    ensures monitor { (m : Spaces) (a b : Addr) (x : Monitor) → length (slots_at (change_at (store_monitor x) m a) b) ≡ length (slots_at m b) }
{}

/// A walk over a block goes from offset to offset: it begins at the first word, continues after each object, and ends after the last one.
/// Each offset stays an offset after a birth, and after a store.
pub fn walks_go_from_offset_to_offset()
    ensures start { (s : Cells) → IsOffset s s.start }
    ensures following { (s : Cells) (p : ℕ) (c : Cell) → IsOffset s p → cell_in s (record { number = p }) ≡ Some c → IsOffset s (p + size c) }
    ensures end { (s : Cells) (p : ℕ) → IsOffset s p → cell_in s (record { number = p }) ≡ None → p ≡ s.start + used_words s.cells }
    ensures birth { (s : Cells) (c : Cell) (p : ℕ) → IsOffset s p → IsOffset (with_last s c) p }
    ensures slot { (s : Cells) (a : Addr) (i w p : ℕ) → IsOffset s p → IsOffset (change_in (store_slot i w) s a) p }
    ensures monitor { (s : Cells) (a : Addr) (m : Monitor) (p : ℕ) → IsOffset s p → IsOffset (change_in (store_monitor m) s a) p }
{}

/// Null and the literals have addresses of their own, each literal one, which determines its number.
#[tactic(auto, using(crate::proofs::MonitorsAt::literal_number_of, crate::proofs::MonitorsAt::literal_same, crate::proofs::MonitorsAt::literal_not_null))]
pub fn literals_are_distinct()
    ensures number { (n : ℕ) → literal_number (literal n) ≡ Some n }
    ensures own { (n m : ℕ) → literal n ≡ literal m → n ≡ m }
    ensures null { (n : ℕ) → literal n ≢ null }
{}

/// A monitor that was set is found at its object or literal, and that of each other one stays. No other store changes one, nor does a birth.
#[tactic(auto, using(crate::proofs::MonitorsAt::monitor_found, crate::proofs::MonitorsAt::monitors_stay, crate::proofs::MonitorsAt::slot_keeps_monitors, crate::proofs::MonitorsAt::birth_keeps_monitors))]
pub fn monitors_stay_but_one()
    ensures own { (o : Objects) (a : Addr) (m : Monitor) → IsSome (monitor_at o a) → monitor_at (with_monitor o a m) a ≡ Some m }
    ensures others { (o : Objects) (a b : Addr) (m : Monitor) → a.number ≢ b.number → monitor_at (with_monitor o a m) b ≡ monitor_at o b }
    ensures slot { (o : Objects) (a b : Addr) (i w : ℕ) → monitor_at (with_slot o a i w) b ≡ monitor_at o b }
    ensures birth { (o : Objects) (phase : Phase) (k : Kind) (n : ℕ) (a : Addr) (m : Monitor) → AreSpaces o.spaces → monitor_at o a ≡ Some m → monitor_at (with_birth phase o k n).0 a ≡ Some m }
{}

/// The shell of an old object that has no other copy fits into the new block: where a cycle opens, after each shell, and after each
/// birth but one in the new block alone.
pub fn shells_fit()
    ensures fits { (m : Spaces) (a : Addr) (c : Cell) → AreSpaces m → HasShellRoom m → cell_in m.old a ≡ Some c → c.other ≡ None → size c ≤ free_words m.new }
    ensures opened { (m : Spaces) (words : ℕ) → m.old.words ≤ words → HasShellRoom (open_cycle m words) }
    ensures shell { (m : Spaces) (a : Addr) (c : Cell) → AreSpaces m → HasShellRoom m → cell_in m.old a ≡ Some c → c.other ≡ None → HasShellRoom (with_shell m a c) }
    ensures birth { (m : Spaces) (phase : Phase) (k : Kind) (n : ℕ) → AreSpaces m → HasShellRoom m → birth_space_of phase m.is_open ≢ InNew → HasShellRoom (birth phase m k n).0 }
{}
