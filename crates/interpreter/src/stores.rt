//! What threads share.

use object_memory::{Heap, Value};

/// What the threads of a machine share: the objects, the static fields by their numbers, and the bytes that were printed.
#[derive(Drop)]
pub struct Store {
    pub heap: Heap,
    pub statics: Vec<Value>,
    pub console: Vec<u8>,
}
