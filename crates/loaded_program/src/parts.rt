//! The parts of a loaded program.

ghost use Rattle.std.specs.Prelude.{◌≡◌, ◌<◌, Some, length, IsSome, IfOk, slice_get};
ghost use Rattle.cil_model.specs.declared.trees.Method.{Method};
ghost use Rattle.cil_model.specs.declared.types.ClassName.{ClassName};
ghost use Rattle.name_tables.specs.Numbers.{method_at};
ghost use Rattle.class_layout.specs.Layouts.{IsLayout};
ghost use Rattle.resolved_code.specs.ResolvedPrograms.{AllAlike};
ghost use Rattle.loaded_program.specs.AllMethods.{all_methods, method_id};
ghost use Rattle.loaded_program.specs.MethodNumbers.{number_of};
ghost use Rattle.loaded_program.specs.LoadedPrograms.{AreMethodNumbers, IsLoadedMethod};

use crate::linker::Linker;
use crate::loaded_methods::{LoadedMethod, all_methods};
use crate::numbers::MethodNumbers;
use cil_model::memory::NoMemory;
use class_layout::Layout;
use name_tables::ids::MethodId;
use resolved_code::Program;
use std::alloc::Global;
use std::marker::Model;

/// A legal program with its layout and its methods by flat numbers, whose instructions are linked: a step looks up no name.
pub(crate) struct Parts {
    program: Program,
    layout: Layout,
    numbers: MethodNumbers,
    methods: Vec<LoadedMethod>,
}

/// Each part is dropped.
impl Drop for Parts {
    fn drop(self) {
        let Parts {
            program: _program,
            layout: _layout,
            numbers: _numbers,
            methods: _methods,
        } = self;
    }
}

/// Contracts see the tree of the program.
impl Model for Parts {
    ghost use Rattle.cil_model.specs.declared.trees.Tree.{Tree};
    ghost use Rattle.loaded_program.specs.LoadedPrograms.{IsLoaded};

    ghost Value = { Tree };

    ghost view = { λ p. p.program };

    ghost invariant = { λ p. IsLoaded p.program p.layout p.numbers p.methods.items };
}

/// All methods of a program, loaded. The only error is out of memory.
fn methods_of(
    alloc: Global,
    program: &Program,
    layout: &Layout,
    numbers: &MethodNumbers,
) -> Result<Vec<LoadedMethod>, NoMemory>
    requires layout { IsLayout program.now layout.now }
    requires numbers { AreMethodNumbers program.now numbers.now }
    ensures { IfOk result (λ methods. AllAlike (IsLoadedMethod program.now) (all_methods program.now) methods.items) }
{
    let linker = Linker {
        program,
        layout,
        numbers,
    };
    all_methods(alloc, &linker)
}

/// The item of a number.
pub(crate) fn item<T>(items: &[T], number: u32) -> &T
    requires { number < length items.now }
    ensures { slice_get items.now number ≡ Some result.now }
{
    &items[number as usize]
}

impl Parts {
    /// The program with this layout, loaded. The only error is out of memory; program and layout are dropped then.
    pub fn new(alloc: Global, program: Program, layout: Layout) -> Result<Self, NoMemory>
        requires { IsLayout program layout }
        ensures { IfOk result (λ loaded. loaded ≡ program) }
    {
        let numbers = MethodNumbers::new(alloc, &program)?;
        let methods = methods_of(alloc, &program, &layout, &numbers)?;
        Ok(Parts {
            program,
            layout,
            numbers,
            methods,
        })
    }

    /// The program that was loaded.
    pub fn program(&self) -> &Program
        ensures { result.now ≡ self.now }
    {
        &self.program
    }

    /// How its objects are laid out and which types are assignable to which.
    pub fn layout(&self) -> &Layout
        ensures { IsLayout self.now result.now }
    {
        &self.layout
    }

    /// The flat number of a method, by its class and its index in it. Any number where there is no such method.
    pub fn number(&self, member: MethodId) -> u32
        ensures { (found : ClassName × Method) → method_at self.now (member.class, member.index) ≡ Some found → slice_get (all_methods self.now) result ≡ Some found }
    {
        self.numbers.number(member)
    }

    /// The method with this flat number.
    pub fn method(&self, number: u32) -> &LoadedMethod
        requires { IsSome (slice_get (all_methods self.now) number) }
        ensures loaded { (found : ClassName × Method) → slice_get (all_methods self.now) number ≡ Some found → IsLoadedMethod self.now found result.now }
        ensures number { (found : ClassName × Method) → slice_get (all_methods self.now) number ≡ Some found → number_of self.now found ≡ Some number }
        ensures id { result.now.member ≡ method_id self.now number }
    {
        item(self.methods.as_slice(), number)
    }
}
