//! The classes, members and instructions of a tree by numbers, and legal programs: a tree together with these numbers.
//! In a `Program` each class, member, operand, label and string literal has a number that refers to what the tree names (`AreResolved`), so the
//! layers above run without names. Every class that a name refers to, and every field and method that it declares, has its number
//! (`all_have_ids`). `ResolvedType::test_for` returns whether a type may be used where another is expected, or names the two classes for which
//! that is then to be tested (`IsResultOf`): `flow_rules` tests it by the bases and interfaces, `class_layout` by its table.
#![tactic(auto)]

pub mod classes;
mod contents;
pub mod entries;
mod errors;
mod identities;
mod instructions;
mod items;
mod labels;
pub mod laws;
pub mod literals;
mod members;
mod numbering;
pub mod operations;
mod program;
mod resolved;
pub mod type_tests;
pub mod types;

pub use contents::Contents;
pub use program::Program;
