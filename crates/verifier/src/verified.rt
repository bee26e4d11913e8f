//! Programs that are accepted.

ghost use Rattle.std.specs.Prelude.{◌≡◌, IfSome, None, Some, slice_get};
ghost use Rattle.cil_model.specs.declared.trees.Method.{Method};
ghost use Rattle.cil_model.specs.declared.types.ClassName.{ClassName};
ghost use Rattle.cil_model.specs.Bodies.{source_methods};
ghost use Rattle.cil_model.specs.Typings.{IsAccepted, IsTyping};
ghost use Rattle.class_layout.specs.Layouts.{IsLayout};
ghost use Rattle.verifier.specs.Answers.{typing_of};
ghost use Rattle.verifier.specs.Verdicts.{AreTypings, IsVerdict};

use crate::refusals::VerifyError;
use crate::typings::{Typing, typing_at, typings_of};
use cil_model::sequences::Sequence;
use class_layout::Layout;
use resolved_code::Program;
use std::alloc::Global;
use std::marker::Model;

/// An accepted program with its layout and a typing of each method.
pub struct Verified {
    program: Program,
    layout: Layout,
    typings: Sequence<Typing>,
}

/// Each part is dropped.
impl Drop for Verified {
    fn drop(self) {
        let Verified {
            program: _program,
            layout: _layout,
            typings: _typings,
        } = self;
    }
}

/// Contracts see the tree, which is accepted: at each pc that is reached the operands of the instruction are there with their
/// types, the stacks of ways on agree, and none is higher than `.maxstack`.
impl Model for Verified {
    ghost use Rattle.cil_model.specs.declared.trees.Tree.{Tree};
    ghost use Rattle.class_layout.specs.Layouts.{IsLayout};
    ghost use Rattle.verifier.specs.Verdicts.{AreTypings};

    ghost Value = { Tree };

    ghost view = { λ v. v.program };

    ghost invariant = { λ v. IsLayout v.program v.layout × AreTypings v.program v.typings };
}

impl Verified {
    /// A program with its layout and a typing of each of its methods, which is thereby accepted. Takes no memory.
    pub fn new(program: Program, layout: Layout, typings: Sequence<Typing>) -> Verified
        requires layout { IsLayout program layout }
        requires typings { AreTypings program typings }
        ensures same { result ≡ program }
        ensures accepted { IsAccepted program }
    {
        Verified {
            program,
            layout,
            typings,
        }
    }

    /// The program that was verified.
    pub fn program(&self) -> &Program
        ensures same { result.now ≡ self.now }
        ensures accepted { IsAccepted self.now }
    {
        &self.program
    }

    /// Where its objects lie and which methods its calls run.
    pub fn layout(&self) -> &Layout
        ensures { IsLayout self.now result.now }
    {
        &self.layout
    }

    /// The program and its layout, without the typings. Takes no memory.
    pub fn into_parts(self) -> (Program, Layout)
        ensures program { result.0 ≡ self }
        ensures layout { IsLayout self result.1 }
        ensures accepted { IsAccepted self }
    {
        let Verified {
            program,
            layout,
            typings: _typings,
        } = self;
        (program, layout)
    }

    /// The typing of a method by its number among those of the source, from 0 in source order: the stack before each instruction, the
    /// top first; none at an instruction that control never reaches. None exactly where no method has the number.
    pub fn typing(&self, method: usize) -> Option<&Typing>
        ensures found { (owner : ClassName) (m : Method) → slice_get (source_methods self.now) method ≡ Some (owner, m) → IfSome result (λ typing. IsTyping self.now owner m (typing_of self.now typing.now)) }
        ensures absent { result ≡ None → slice_get (source_methods self.now) method ≡ None }
        ensures beyond { slice_get (source_methods self.now) method ≡ None → result ≡ None }
    {
        typing_at(self.typings.as_slice(), method)
    }
}

/// Verifies each method of a program (ECMA-335 III.1.8.1): exactly a program whose methods all have a typing is accepted. Of another one
/// the error names the first method in source order that has none, by its number from 0, those without code counted too. Program and
/// layout are dropped where it refuses. Out of memory may be returned in place of either.
pub fn verify(alloc: Global, program: Program, layout: Layout) -> Result<Verified, VerifyError>
    requires { IsLayout program layout }
    ensures { IsVerdict program result }
{
    let typings = typings_of(alloc, &program)?;
    Ok(Verified::new(program, layout, typings))
}
