//! The work of Allocate and of Copy: each marked object of the old block gets its replica in the new one, and then its words.

ghost use Rattle.std.specs.Prelude.{◌≡◌, ◌≤◌, ◌<◌, ◌-◌, true, Some, IsSome, length};
ghost use Rattle.cil_model.specs.declared.phases.Phase.TheVariants.{Allocate, Copy};
ghost use Rattle.cil_model.specs.declared.trees.Tree.{Tree};
ghost use Rattle.class_layout.specs.Layouts.{IsLayout};
ghost use Rattle.object_memory.specs.Cells.{Cell, cell_in};
ghost use Rattle.object_memory.specs.Spaces.{AreSpaces, cell_at, slots_at};
ghost use Rattle.collector.specs.Attempts.{has_loaded, is_same_monitor, with_loaded};
ghost use Rattle.collector.specs.Conditions.{IsForwardable, IsReadable, IsSoundFor, IsSoundIn, found_at};
ghost use Rattle.collector.specs.CopySteps.{after_word, next_copy_step, next_shell_step, needs_copy, word_checked, word_begun, word_stored};
ghost use Rattle.collector.specs.Soundness.{copied_word};

use crate::progress::{Attempt, MOST_FAILED_CHECKS, Progress, Stage};
use crate::references::holds_reference;
use crate::walks::{FoundObject, next_copied};
use barriers::forward;
use class_layout::Layout;
use object_memory::{Addr, Heap, Monitor, Value, ValueKind};

/// Looks at the next object of the old block: a marked one without another copy gets a shell in the new block, with its kind, the same number of
/// slots, and no word yet. False where each object was looked at; nothing changes then.
pub fn shell_step(progress: &mut Progress, heap: &mut Heap) -> bool
    requires { IsSoundIn Allocate progress.old heap.old }
    ensures { (progress.new, heap.new, result) ≡ next_shell_step progress.old heap.old }
{
    let Some(object) = heap.old_at(progress.cursor) else {
        return false;
    };
    progress.cursor += heap.size(object);
    if needs_copy(heap, object) {
        heap.shell(object);
    }
    true
}

/// Whether an old object has to have another copy and has none yet.
fn needs_copy(heap: &Heap, object: Addr) -> bool
    requires { IsSome (cell_in heap.now.spaces.old object) }
    ensures { (c : Cell) → cell_in heap.now.spaces.old object ≡ Some c → result ≡ needs_copy c }
{
    heap.is_marked(object) && heap.other(object).is_none()
}

/// One step at the next word of the next old object with two copies, from the cursor on: the monitor first, then slot by slot. A word is
/// loaded from the old copy, stored in the new one (a reference by its forward), and checked: where the old copy has another word by
/// then, the next attempt begins. After three failed checks the word is loaded and stored in one step. Objects without another copy are
/// passed over in the same step. False where no word is left; nothing changes then. (Hudson and Moss, "Sapphire".)
pub fn copy_step(progress: &mut Progress, heap: &mut Heap, layout: &Layout) -> bool
    requires { IsSoundFor layout.now Copy progress.old heap.old }
    ensures { (tree : Tree) → IsLayout tree layout.now → (progress.new, heap.new, result) ≡ next_copy_step tree progress.old heap.old }
{
    let Some(twin) = next_copied(heap, progress.cursor) else {
        return false;
    };
    match progress.attempt.stage {
        Stage::Begins => begin_word(progress, heap, layout, twin.found, twin.copy),
        Stage::Loaded => {
            store_word(
                heap,
                layout,
                twin.found.object,
                twin.copy,
                progress.copied_words,
                &progress.attempt,
            );
            progress.cursor = twin.found.offset;
            progress.attempt.stage = Stage::Stored;
        }
        Stage::Stored => check_word(progress, heap, twin.found),
    }
    true
}

/// Loads the next word of an old object; after three failed checks, stores it in the other copy too and advances to the next word.
fn begin_word(
    progress: &mut Progress,
    heap: &mut Heap,
    layout: &Layout,
    next: FoundObject,
    copy: Addr,
)
    requires spaces { AreSpaces heap.old.spaces }
    requires there { IsSome (cell_in heap.old.spaces.old next.object) × IsSome (cell_at heap.old.spaces copy) }
    requires offset { next ≡ found_at heap.old.spaces.old next.object.number }
    requires slots { 0 < progress.old.copied_words → IsReadable layout.now heap.old next.object (progress.old.copied_words - 1) × (progress.old.copied_words ≤ length (slots_at heap.old.spaces copy)) }
    ensures { (tree : Tree) → IsLayout tree layout.now → (c : Cell) → cell_in heap.old.spaces.old next.object ≡ Some c → (progress.new, heap.new) ≡ word_begun tree progress.old heap.old next.object c copy }
{
    let word = progress.copied_words;
    load_word(heap, next.object, word, &mut progress.attempt);
    if progress.attempt.failed_checks < MOST_FAILED_CHECKS {
        progress.cursor = next.offset;
    } else {
        let attempt = progress.attempt;
        pass_word(progress, heap, next);
        store_word(heap, layout, next.object, copy, word, &attempt);
    }
}

/// Loads a word of an old object into an attempt: word 0 is the monitor, word n + 1 slot n.
fn load_word(heap: &Heap, object: Addr, word: u32, attempt: &mut Attempt)
    requires there { IsSome (cell_in heap.now.spaces.old object) }
    requires slot { (c : Cell) → cell_in heap.now.spaces.old object ≡ Some c → word ≤ length c.slots }
    ensures { (c : Cell) → cell_in heap.now.spaces.old object ≡ Some c → attempt.new ≡ with_loaded c word attempt.old }
{
    attempt.stage = Stage::Loaded;
    if word == 0 {
        attempt.monitor = heap.cell_monitor(object);
    } else {
        attempt.word = heap.slot(object, word - 1);
    }
}

/// Advances to the next word of an old object where the object still has what was loaded; else the next attempt begins, with one more
/// failed check.
fn check_word(progress: &mut Progress, heap: &Heap, next: FoundObject)
    requires spaces { AreSpaces heap.now.spaces }
    requires there { IsSome (cell_in heap.now.spaces.old next.object) }
    requires offset { next ≡ found_at heap.now.spaces.old next.object.number }
    requires slot { (c : Cell) → cell_in heap.now.spaces.old next.object ≡ Some c → progress.old.copied_words ≤ length c.slots }
    requires few { progress.old.attempt.failed_checks < MOST_FAILED_CHECKS }
    ensures { (c : Cell) → cell_in heap.now.spaces.old next.object ≡ Some c → progress.new ≡ word_checked progress.old heap.now.spaces.old next.object c }
{
    if has_loaded(heap, next.object, progress.copied_words, &progress.attempt) {
        pass_word(progress, heap, next);
    } else {
        progress.cursor = next.offset;
        progress.attempt = Attempt {
            failed_checks: progress.attempt.failed_checks + 1,
            ..Attempt::none()
        };
    }
}

/// Whether an old object still has the word that was loaded.
fn has_loaded(heap: &Heap, object: Addr, word: u32, attempt: &Attempt) -> bool
    requires there { IsSome (cell_in heap.now.spaces.old object) }
    requires slot { (c : Cell) → cell_in heap.now.spaces.old object ≡ Some c → word ≤ length c.slots }
    ensures { (c : Cell) → cell_in heap.now.spaces.old object ≡ Some c → result ≡ has_loaded attempt.now c word }
{
    if word == 0 {
        is_same_monitor(heap.cell_monitor(object), attempt.monitor)
    } else {
        heap.slot(object, word - 1) == attempt.word
    }
}

/// Whether two monitors are equal: both free, or held by one thread that entered both the same number of times.
fn is_same_monitor(a: Monitor, b: Monitor) -> bool
    ensures { result ≡ is_same_monitor a b }
{
    match a {
        Monitor::Free => match b {
            Monitor::Free => true,
            Monitor::Held { .. } => false,
        },
        Monitor::Held { owner, count } => match b {
            Monitor::Free => false,
            Monitor::Held {
                owner: other,
                count: others,
            } => owner == other && count == others,
        },
    }
}

/// Advances to the next word of an old object, or past the object where this was its last word. No attempt at that word is under way.
fn pass_word(progress: &mut Progress, heap: &Heap, next: FoundObject)
    requires spaces { AreSpaces heap.now.spaces }
    requires there { IsSome (cell_in heap.now.spaces.old next.object) }
    requires offset { next ≡ found_at heap.now.spaces.old next.object.number }
    ensures { (c : Cell) → cell_in heap.now.spaces.old next.object ≡ Some c → progress.new ≡ after_word progress.old heap.now.spaces.old next.object c progress.old.copied_words }
{
    progress.attempt = Attempt::none();
    if progress.copied_words < heap.slots(next.object) {
        progress.cursor = next.offset;
        progress.copied_words += 1;
    } else {
        progress.cursor = next.offset + heap.size(next.object);
        progress.copied_words = 0;
    }
}

/// Stores what was loaded of a word of an old object in its other copy: word 0 is the monitor, word n + 1 slot n. Nothing else changes.
fn store_word(heap: &mut Heap, layout: &Layout, from: Addr, to: Addr, word: u32, attempt: &Attempt)
    requires monitors { IsSome (cell_in heap.old.spaces.old from) × IsSome (cell_at heap.old.spaces to) }
    requires slots { 0 < word → IsForwardable layout.now heap.old from (word - 1) attempt.now.word × (word ≤ length (slots_at heap.old.spaces to)) }
    ensures { (tree : Tree) → IsLayout tree layout.now → (c : Cell) → cell_in heap.old.spaces.old from ≡ Some c → heap.new ≡ word_stored tree heap.old attempt.now c to word }
{
    if word == 0 {
        heap.set_cell_monitor(to, attempt.monitor);
    } else {
        let copied = copied_word(heap, layout, from, word - 1, attempt.word);
        heap.set_slot(to, word - 1, copied);
    }
}

/// The word that a slot of an old object has in its other copy, where it has this one in the old: the forward of a reference, any other
/// word as it is.
fn copied_word(heap: &Heap, layout: &Layout, object: Addr, slot: u32, word: u64) -> u64
    requires { IsForwardable layout.now heap.now object slot word }
    ensures { (tree : Tree) → IsLayout tree layout.now → (c : Cell) → cell_in heap.now.spaces.old object ≡ Some c → result ≡ copied_word tree heap.now.spaces c slot word }
{
    if holds_reference(layout, heap.kind(object), slot) {
        forward(heap, Value::of_word(ValueKind::Ref, word)).word()
    } else {
        word
    }
}
