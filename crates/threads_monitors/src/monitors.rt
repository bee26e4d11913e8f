//! Who enters and leaves the monitors of objects and literals.

ghost use Rattle.std.specs.Prelude.{◌≡◌, ◌≢◌, ◌<◌, ◌-◌, ◌^◌, IsSome, Some, true};
ghost use Rattle.object_memory.specs.Cells.{null};
ghost use Rattle.object_memory.specs.Objects.{monitor_at};
ghost use Rattle.object_memory.specs.declared.monitors.Monitor.{Monitor};
ghost use Rattle.barriers.specs.Barriers.{is_monitor_storable};
ghost use Rattle.threads_monitors.specs.Monitors.{enter_monitor, entries, leave_monitor, with_entry, with_exit};

use crate::effects::Effect;
use crate::mutators::Mutator;
use cil_model::reports::Fault;
use object_memory::{Addr, Heap, Monitor};

/// `Monitor.Enter` of an object or a literal (ECMA-335 I.12.6.5): a monitor that is free, or the thread's own, is entered
/// once more. Another's blocks, and nothing changes. Null raises `ArgumentNull`. It takes no memory.
pub fn enter(heap: &mut Heap, mutator: Mutator, object: Addr) -> Effect
    requires there { object ≢ null → IsSome (monitor_at heap.old object) }
    requires count { object ≢ null → (m : Monitor) → monitor_at heap.old object ≡ Some m → entries m < 2 ^ 32 - 1 }
    requires ready { object ≢ null → is_monitor_storable mutator.phase heap.old object ≡ true }
    ensures { (heap.new, result) ≡ with_entry mutator heap.old object }
{
    if object.is_null() {
        return Effect::Raises(Fault::ArgumentNull);
    }
    match once_more(heap.monitor(object), mutator.number) {
        Some(monitor) => {
            barriers::store_monitor(heap, mutator.phase, object, monitor);
            Effect::Continues
        }
        None => Effect::Blocks,
    }
}

/// `Monitor.Exit` of an object or a literal (ECMA-335 I.12.6.5): its owner leaves it once, and at none it is free. Any other
/// thread raises `SynchronizationLock`, and nothing changes. Null raises `ArgumentNull`. It takes no memory.
pub fn exit(heap: &mut Heap, mutator: Mutator, object: Addr) -> Effect
    requires there { object ≢ null → IsSome (monitor_at heap.old object) }
    requires ready { object ≢ null → is_monitor_storable mutator.phase heap.old object ≡ true }
    ensures { (heap.new, result) ≡ with_exit mutator heap.old object }
{
    if object.is_null() {
        return Effect::Raises(Fault::ArgumentNull);
    }
    match once_less(heap.monitor(object), mutator.number) {
        Some(monitor) => {
            barriers::store_monitor(heap, mutator.phase, object, monitor);
            Effect::Continues
        }
        None => Effect::Raises(Fault::SynchronizationLock),
    }
}

/// The monitor once the thread has entered it once more. None where another thread holds it.
fn once_more(monitor: Monitor, thread: u8) -> Option<Monitor>
    requires { entries monitor < 2 ^ 32 - 1 }
    ensures { result ≡ enter_monitor thread monitor }
{
    match monitor {
        Monitor::Free => Some(Monitor::Held {
            owner: thread,
            count: 1,
        }),
        Monitor::Held { owner, count } if owner == thread => Some(Monitor::Held {
            owner: thread,
            count: count + 1,
        }),
        Monitor::Held { .. } => None,
    }
}

/// The monitor once its owner has left it once. None where the thread is not its owner.
fn once_less(monitor: Monitor, thread: u8) -> Option<Monitor>
    ensures { result ≡ leave_monitor thread monitor }
{
    match monitor {
        Monitor::Held { owner, count } if owner == thread => {
            if count <= 1 {
                return Some(Monitor::Free);
            }
            Some(Monitor::Held {
                owner: thread,
                count: count - 1,
            })
        }
        _ => None,
    }
}
