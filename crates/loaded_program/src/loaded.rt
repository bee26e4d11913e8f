//! Loaded programs.

ghost use Rattle.std.specs.Prelude.{◌≡◌, Some, IsSome, IfOk, slice_get};
ghost use Rattle.cil_model.specs.declared.trees.Method.{Method};
ghost use Rattle.cil_model.specs.declared.types.ClassName.{ClassName};
ghost use Rattle.cil_model.specs.Slots.{target};
ghost use Rattle.name_tables.specs.Numbers.{method_at};
ghost use Rattle.resolved_code.specs.ById.{class_name};
ghost use Rattle.class_layout.specs.Layouts.{IsLayout};
ghost use Rattle.loaded_program.specs.AllMethods.{all_methods, method_id};
ghost use Rattle.loaded_program.specs.MethodNumbers.{number_of};
ghost use Rattle.loaded_program.specs.LoadedPrograms.{IsCode, IsLinkedAt, IsLoadedMethod, line_in, target_in};

use crate::instructions::LinkedInstruction;
use crate::loaded_methods::LoadedMethod;
use crate::parts::{Parts, item};
use cil_model::memory::NoMemory;
use class_layout::Layout;
use name_tables::ids::{ClassId, MethodId};
use resolved_code::Program;
use std::alloc::Global;
use std::marker::Model;
use std::sync::Arc;

/// A legal program with its layout and its methods by flat numbers, whose instructions are linked: a step looks up no name.
///
/// It may have several owners, in any threads, who all read the one program.
pub struct LoadedProgram {
    parts: Arc<Parts>,
}

/// The last owner gives back the program.
impl Drop for LoadedProgram {
    fn drop(self) {
        let LoadedProgram { parts: _parts } = self;
    }
}

/// Contracts see the tree of the program.
impl Model for LoadedProgram {
    ghost use Rattle.cil_model.specs.declared.trees.Tree.{Tree};
    ghost use Rattle.std.specs.Arc.{arc_value};

    ghost Value = { Tree };

    ghost view = { λ p. arc_value p.parts };
}

impl LoadedProgram {
    /// The program with this layout, loaded. The only error is out of memory; program and layout are dropped then.
    pub fn new(alloc: Global, program: Program, layout: Layout) -> Result<Self, NoMemory>
        requires { IsLayout program layout }
        ensures { IfOk result (λ loaded. loaded ≡ program) }
    {
        let parts = Parts::new(alloc, program, layout)?;
        match Arc::new(alloc, parts) {
            Ok(parts) => Ok(LoadedProgram { parts }),
            Err(_) => Err(NoMemory),
        }
    }

    /// The same program for one owner more. It takes no memory; the only error is that the count of its owners is at its maximum.
    pub fn share(&self) -> Result<Self, NoMemory>
        ensures { IfOk result (λ other. other ≡ self.now) }
    {
        match Arc::try_clone(&self.parts) {
            Ok(parts) => Ok(LoadedProgram { parts }),
            Err(_) => Err(NoMemory),
        }
    }

    /// The program that was loaded.
    pub fn program(&self) -> &Program
        ensures { result.now ≡ self.now }
    {
        self.parts.program()
    }

    /// How its objects are laid out and which types are assignable to which.
    pub fn layout(&self) -> &Layout
        ensures { IsLayout self.now result.now }
    {
        self.parts.layout()
    }

    /// The flat number of a method, by its class and its index in it. Any number where there is no such method.
    pub fn number(&self, member: MethodId) -> u32
        ensures { (found : ClassName × Method) → method_at self.now (member.class, member.index) ≡ Some found → slice_get (all_methods self.now) result ≡ Some found }
    {
        self.parts.number(member)
    }

    /// The method with this flat number.
    pub fn method(&self, number: u32) -> &LoadedMethod
        requires { IsSome (slice_get (all_methods self.now) number) }
        ensures loaded { (found : ClassName × Method) → slice_get (all_methods self.now) number ≡ Some found → IsLoadedMethod self.now found result.now }
        ensures number { (found : ClassName × Method) → slice_get (all_methods self.now) number ≡ Some found → number_of self.now found ≡ Some number }
        ensures id { result.now.member ≡ method_id self.now number }
    {
        self.parts.method(number)
    }

    /// The instructions of the method with this flat number, in the order of its lines.
    pub fn code(&self, method: u32) -> &[LinkedInstruction]
        requires { IsSome (slice_get (all_methods self.now) method) }
        ensures { IsCode self.now method result.now }
    {
        self.method(method).code.as_slice()
    }

    /// The instruction at a pc of the method with this flat number.
    pub fn instruction(&self, method: u32, index: u32) -> &LinkedInstruction
        requires { IsSome (line_in self.now method index) }
        ensures { IsLinkedAt self.now method index result.now }
    {
        item(self.code(method), index)
    }

    /// The flat number of the method that runs where the method with this one is called on an object of a class, or on an array, which has
    /// none (ECMA-335 II.10.3, II.12.2, III.4.2).
    pub fn target(&self, method: u32, class: Option<ClassId>) -> u32
        requires { IsSome (target_in self.now method class) }
        ensures { slice_get (all_methods self.now) result ≡ target_in self.now method class }
    {
        match class {
            Some(class) => self.class_target(self.method(method).member, class),
            None => method,
        }
    }

    /// The flat number of the method that runs where a method, by its class and its index in it, is called on an object of a class. Any number
    /// where none does.
    fn class_target(&self, member: MethodId, class: ClassId) -> u32
        ensures { (found run : ClassName × Method) (c : ClassName) → method_at self.now (member.class, member.index) ≡ Some found → class_name self.now class ≡ Some c →
            target self.now c found.0 found.1 ≡ Some run → slice_get (all_methods self.now) result ≡ Some run }
    {
        match self.layout().target(class, member) {
            Some(target) => self.number(target),
            None => u32::MAX,
        }
    }
}
