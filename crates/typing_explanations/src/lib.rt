//! Explains why a method has no typing (number 301): the instruction at fault, in words, and the stacks there.
//! `explain_typing` says it of a failure that `verifier` reports, with the line that pushed each value and what to write instead, where that is known;
//! `needed_height` is the height of the stack that a method needs. What the texts say is only tested.
#![tactic(auto)]

mod effects;
mod expected;
mod heights;
mod id_texts;
mod methods;
mod operand_types;
mod refusals;
mod remedies;
mod typings;

pub use heights::needed_height;
pub use typings::explain_typing;
pub use verifier;
