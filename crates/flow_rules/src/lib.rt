//! Computes what an instruction does to a stack of types, and the merge of two types (ECMA-335 III.1.8.1.3), by numbers.
//! `flow` does exactly what the flow rule says, and reports a mismatch exactly where the rule has no result. `TypeTree::merge` returns the closest
//! common ancestor of two types, and None exactly where no type is above both; in a legal program two references always have one
//! (`object_is_above`). `TypeTree::is_assignable` is the test of assignability.
#![tactic(auto)]

pub mod arrays;
pub mod entries;
pub mod flow;
pub mod laws;
mod lines;
pub mod members;
pub mod method_types;
pub mod mismatches;
pub mod operators;
pub mod type_stack;
pub mod type_tree;
pub mod variables;
