//! Links a program for the machine: each instruction and each method has the numbers that its step needs, looked up once; the targets of virtual
//! calls are those of the layout.
//! Contracts see the program's tree. `instruction` returns the link of the instruction of a line, `method` what a call needs of a method by its flat
//! number, `target` the flat number of exactly the method that runs on objects of a class. In a legal tree each method has one flat number, by its
//! class, name and signature (`methods_have_one_number`).
#![tactic(auto)]

mod actions;
mod instructions;
pub mod laws;
mod linker;
mod loaded;
mod loaded_methods;
mod methods;
mod numbers;
mod operands;
mod parts;

pub use actions::Action;
pub use instructions::LinkedInstruction;
pub use loaded::LoadedProgram;
pub use loaded_methods::LoadedMethod;
