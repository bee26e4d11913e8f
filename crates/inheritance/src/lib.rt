//! Finds, by numbers, the nearest class that declares a key, from a class on through its bases.
//!
//! The problem: a source can be made slow. Where a look-up climbs the bases, n classes in one chain cost n for each reference; and names are looked
//! up before it is known that bases end, so a chain may also be a cycle, which is followed for the number of classes that the definitions look at.
//!
//! The algorithm: one tour of the forest of classes (an Euler tour: enter a class after its base, leave it after its derived classes). Each key keeps
//! its changes by time: a class that declares it is entered (it finds that class), or left (it finds again what its base found). What a key finds
//! from a class on is its last change before the class was entered, found by halves. A cycle is cut at one class (`CutCycles`): a chain that runs
//! into it is two parts that end, so it takes two such look-ups. `finds_marked` and `finds_nothing` determine it for all classes in one walk over
//! changes. `least_own_base` finds in one walk along all bases the least class that they lead back to; `classes_in_topological_order` lists the classes whose
//! bases end, each after its base.
//!
//! The bound: tables take time and memory with the classes and declarations, times a logarithm; a look-up takes the logarithm of the number of classes
//! that declare the key. Results are proved whatever the order of the tour; that it reaches every class whose bases end, and so the bound, no contract
//! says.
#![tactic(auto)]

mod changes;
mod cut_cycles;
mod cut_lookups;
mod cycles;
mod forests;
mod inheritance;
mod left_out;
mod nearest;
mod query;
mod scoped_tables;
mod topological_order;
mod tours;

pub use changes::Declared;
pub use cut_cycles::CutCycles;
pub use cycles::least_own_base;
pub use forests::Forest;
pub use inheritance::{Cyclic, Inheritance};
pub use topological_order::classes_in_topological_order;
