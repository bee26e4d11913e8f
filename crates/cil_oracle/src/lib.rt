//! The test interpreter: the reference machine as a slow, obvious program over a tree, to be compared with the machine that is proved.
//!
//! It is an account of its own of each instruction (ECMA-335 Partition III), written apart from the machine; its calls are proved safe, and not
//! equal to the definitions. Objects never move, and the space has no end: a birth that another machine refused is passed to `step`.
#![tactic(auto)]

mod arithmetic;
mod built_in;
mod calls;
mod classes;
mod effects;
mod frames;
mod heap;
mod instructions;
mod machine;
mod names;
mod objects;
mod state;
mod transitions;
mod values;

pub use machine::OracleMachine;
pub use names::OracleNames;
