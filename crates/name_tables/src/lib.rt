//! Finds classes and members by hash, each look-up exactly as the definitions do.
//! Each declared name and signature of a method has a number, the index of its first declaration. By these numbers, and no longer by texts, the
//! tables know what each class declares, what is virtual, and what a call finds, also for all classes at once whether one lacks a method.
#![tactic(auto)]

pub mod bodies;
pub mod built_in;
pub mod class_tables;
pub mod classes;
pub mod ids;
mod inherited;
pub mod key_indices;
pub mod keys;
pub mod kinds;
pub mod lookups;
mod members;
pub mod methods;
pub mod tables;
pub mod trees;
