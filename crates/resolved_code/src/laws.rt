//! Laws of numbers. Each function has an empty body, and its contract is the law.

ghost use Rattle.std.specs.Prelude.{◌≡◌, ℕ, List, Some, slice_get};
ghost use Rattle.cil_model.specs.Legality.{IsLegal};
ghost use Rattle.cil_model.specs.declared.instructions.Instruction.{Instruction};
ghost use Rattle.cil_model.specs.declared.types.ClassName.{ClassName};
ghost use Rattle.cil_model.specs.declared.trees.Line.{Line};
ghost use Rattle.cil_model.specs.declared.trees.Tree.{Tree};
ghost use Rattle.cil_model.specs.declared.trees.Field.{Field};
ghost use Rattle.cil_model.specs.declared.trees.Method.{Method};
ghost use Rattle.cil_model.specs.Chains.{fields_declared, methods_declared};
ghost use Rattle.cil_model.specs.Declarations.{Declaration, declaration_of};
ghost use Rattle.name_tables.specs.Numbers.{class_number, field_at, method_at};
ghost use Rattle.resolved_code.specs.ById.{class_name};
ghost use Rattle.resolved_code.specs.ResolvedPrograms.{IsOperation};
ghost use Rattle.resolved_code.specs.declared.operations.Operation.{Operation};

/// Each class that a name refers to has a number, a built-in one too, and each field and each method that it declares is at that
/// number and its index. So what is said of all numbers is said of all classes, fields and methods.
pub fn all_have_ids()
    ensures classes { (tree : Tree) (c : ClassName) (d : Declaration) → declaration_of tree c ≡ Some d → (n : ℕ) × (class_number tree c ≡ Some n) × (class_name tree n ≡ Some c) }
    ensures fields { (tree : Tree) (c : ClassName) (p : ℕ) (f : Field) → slice_get (fields_declared tree c) p ≡ Some f → (n : ℕ) × (class_number tree c ≡ Some n) × (field_at tree (n, p) ≡ Some (c, f)) }
    ensures methods { (tree : Tree) (c : ClassName) (p : ℕ) (m : Method) → slice_get (methods_declared tree c) p ≡ Some m → (n : ℕ) × (class_number tree c ≡ Some n) × (method_at tree (n, p) ≡ Some (c, m)) }
{}

/// In a legal tree an instruction has one operation: its names, its literal and its labels have one number each.
pub fn an_instruction_has_one_operation()
    ensures { (tree : Tree) → IsLegal tree → (lines : List Line) (i : Instruction) (o p : Operation) → IsOperation tree lines i o → IsOperation tree lines i p → o ≡ p }
{}
