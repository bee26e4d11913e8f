//! Comparison of two machines of one program.

ghost use Rattle.std.specs.Prelude.{◌≡◌, map, true};
ghost use Rattle.interleaving_core.specs.Alike.{AreAlike, status_of};
ghost use Rattle.interleaving_core.specs.Views.{machine_state_of};

use crate::engine::Engine;
use object_memory::Digest;
use simulation::collector_code::Progress;
use threads_monitors::{Thread, are_same};

/// Whether two lists of threads are equal except for the remaining steps. True only if they are.
fn are_alike_threads(threads: &[Thread], others: &[Thread]) -> bool
    ensures { result ≡ true → map status_of threads.now ≡ map status_of others.now }
{
    if threads.len() != others.len() {
        return false;
    }
    for index in 0..threads.len() {
        if !threads[index]
            .thread_status
            .is_like(&others[index].thread_status)
        {
            return false;
        }
    }
    true
}

/// Whether two lists of bytes are equal. True only if they are.
fn are_same_bytes(bytes: &[u8], others: &[u8]) -> bool
    ensures { result ≡ true → bytes.now ≡ others.now }
{
    if bytes.len() != others.len() {
        return false;
    }
    for index in 0..bytes.len() {
        if bytes[index] != others[index] {
            return false;
        }
    }
    true
}

/// Whether the progress of two collectors is equal. True only if it is.
fn is_same_progress(progress: Progress, other: Progress) -> bool
    ensures { result ≡ true → progress ≡ other }
{
    progress == other
}

/// Whether two machines of one program within the same limits differ in nothing but the remaining steps of threads. True only if so.
pub(crate) fn are_alike(engine: &Engine, other: &Engine) -> bool
    requires program { (machine_state_of other.now).tree ≡ (machine_state_of engine.now).tree }
    requires limits { other.now.limits ≡ engine.now.limits }
    ensures { result ≡ true → AreAlike (machine_state_of engine.now) (machine_state_of other.now) }
{
    engine.posts.is_like(&other.posts)
        && is_same_progress(engine.progress, other.progress)
        && engine.store.heap.is_like(&other.store.heap)
        && are_same(&engine.store.statics, &other.store.statics)
        && are_same_bytes(&engine.store.console, &other.store.console)
        && are_alike_threads(&engine.threads, &other.threads)
}

/// A digest of what `are_alike` compares, except for the posts and the progress of the collector.
pub(crate) fn digest_of(engine: &Engine) -> Digest {
    let mut digest = Digest::new();
    engine.store.heap.digest(&mut digest);
    for value in &engine.store.statics {
        digest.add(value.word());
    }
    for byte in &engine.store.console {
        digest.add(u64::from(*byte));
    }
    for thread in &engine.threads {
        thread.thread_status.digest(&mut digest);
    }
    digest
}
