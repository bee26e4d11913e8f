//! What the slots of objects hold.

use cil_model::values::ValueKind;

/// What a slot of an object holds.
#[derive(Clone, Copy)]
pub enum SlotKind {
    /// The hidden field of a `Cilvm.Thread`, which no text declares.
    Hidden,
    /// A field that is declared.
    Declared(ValueKind),
}
