//! The phases of a cycle of the collector.

use svg_text::Class;

/// The classes of the phases in the style, by their indices in a cycle, and one for no phase.
const CLASSES: [Class; 8] = [
    Class::Plain,
    Class::PhaseMark,
    Class::PhaseAllocate,
    Class::PhaseCopy,
    Class::PhasePreFlip,
    Class::PhaseHeapFlip,
    Class::PhaseThreadFlip,
    Class::PhaseReclaim,
];

/// The names of the phases, by their indices in a cycle, and one for no phase.
const NAMES: [&str; 8] = [
    "",
    "mark",
    "allocate",
    "copy",
    "pre-flip",
    "heap-flip",
    "thread-flip",
    "reclaim",
];

/// The class of a phase in the style, by its index in a cycle.
pub(crate) fn class_of_phase(index: usize) -> Class {
    CLASSES[index % 8]
}

/// The name of a phase, by its index in a cycle.
pub(crate) fn name_of_phase(index: usize) -> &'static str {
    NAMES[index % 8]
}
