//! Workers, each in a thread of its own, that run the threads of a shared machine in passes.

pub(crate) mod deadlock;
pub(crate) mod gate;
pub(crate) mod pace;
pub(crate) mod pass_snapshot;
pub(crate) mod passes;
pub(crate) mod plan;
pub(crate) mod pool;
pub(crate) mod seats;
pub(crate) mod work;
