//! Whether the live threads of a machine wait for one another.

ghost use Rattle.std.specs.Prelude.{◌≡◌, ◌↔◌, IsTrue};
ghost use Rattle.shared_machine.specs.Work.{IsDeadlocked, IsHeldUp};

use interleaving_core::Machine;

/// Whether a thread is not live, or waits.
fn is_held_up(machine: &Machine, thread: u8) -> bool
    ensures { IsTrue result ↔ IsHeldUp machine.now thread }
{
    !machine.is_live(thread) || machine.wait_of(thread).is_some()
}

/// Whether each live thread waits for a monitor that another thread holds, or for the end of a live thread. So it is where none is live.
///
/// Such a thread continues only where the awaited one ends or leaves the monitor, which no waiting thread does. It takes no memory.
pub(crate) fn is_deadlocked(machine: &Machine) -> bool
    ensures { IsTrue result ↔ IsDeadlocked machine.now }
{
    for thread in 0..machine.started() {
        if !is_held_up(machine, thread as u8) {
            return false;
        }
    }
    true
}
