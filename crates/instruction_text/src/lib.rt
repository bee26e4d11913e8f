//! Writes instructions and what they name as ilasm does (ECMA-335 II.5 and III; the grammar is this profile's).
//! The texts are exactly those of the definition, and printable ASCII whatever the names and literals hold (`laws`).
#![tactic(auto)]

mod characters;
mod instructions;
pub mod laws;
mod references;
mod types;

pub use characters::{BytesText, CharactersText};
pub use instructions::InstructionText;
pub use references::MethodNameText;
pub use types::ClassText;
