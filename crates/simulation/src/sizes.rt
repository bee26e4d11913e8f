//! Laws of legal programs. Each function has an empty body, and its contract is the law.

ghost use Rattle.std.specs.Prelude.{◌≡◌, ◌≤◌, ◌<◌, ◌≤ℤ◌, ◌*◌, ◌^◌, ℕ, List, Some, length, slice_get};
ghost use Rattle.interpreter.specs.cil_model.declared.trees.Tree.{Tree};
ghost use Rattle.interpreter.specs.cil_model.declared.trees.Method.{Method};
ghost use Rattle.interpreter.specs.cil_model.declared.trees.Code.{Code};
ghost use Rattle.interpreter.specs.cil_model.declared.trees.Line.{Line};
ghost use Rattle.interpreter.specs.cil_model.declared.types.ClassName.{ClassName};
ghost use Rattle.interpreter.specs.cil_model.declared.types.DeclaredType.{DeclaredType};
ghost use Rattle.interpreter.specs.cil_model.declared.instructions.Instruction.TheVariants.{NewArray};
ghost use Rattle.interpreter.specs.cil_model.declared.limits.TheConstants.{MOST_ARGUMENTS, MOST_BRACKETS, MOST_INSTRUCTIONS, MOST_LOCALS, MOST_METHODS, MOST_STACK, MOST_STATIC_FIELDS};
ghost use Rattle.interpreter.specs.cil_model.Bodies.{argument_types, code_of};
ghost use Rattle.interpreter.specs.cil_model.Chains.{methods_declared};
ghost use Rattle.interpreter.specs.cil_model.Fields.{FieldKey, instance_slot, slot_types, static_fields, static_slot};
ghost use Rattle.interpreter.specs.cil_model.Legality.{IsLegal};
ghost use Rattle.interpreter.specs.cil_model.Mentions.{literals_of};
ghost use Rattle.interpreter.specs.resolved_code.ById.{class_name};

/// A method that a class declares, a built-in one too, has few arguments, and its code few instructions and locals and a low stack.
pub fn methods_are_small()
    ensures arguments { (tree : Tree) → IsLegal tree → (c : ClassName) (n : ℕ) (m : Method) → slice_get (methods_declared tree c) n ≡ Some m → length (argument_types m c) ≤ MOST_ARGUMENTS }
    ensures instructions { (tree : Tree) → IsLegal tree → (c : ClassName) (n : ℕ) (m : Method) → slice_get (methods_declared tree c) n ≡ Some m → (code : Code) → code_of m.kind ≡ Some code → length code.lines ≤ MOST_INSTRUCTIONS }
    ensures locals { (tree : Tree) → IsLegal tree → (c : ClassName) (n : ℕ) (m : Method) → slice_get (methods_declared tree c) n ≡ Some m → (code : Code) → code_of m.kind ≡ Some code → length code.locals ≤ MOST_LOCALS }
    ensures stack { (tree : Tree) → IsLegal tree → (c : ClassName) (n : ℕ) (m : Method) → slice_get (methods_declared tree c) n ≡ Some m → (code : Code) → code_of m.kind ≡ Some code → code.max_stack ≤ℤ MOST_STACK }
    ensures arrays { (tree : Tree) → IsLegal tree → (c : ClassName) (n : ℕ) (m : Method) → slice_get (methods_declared tree c) n ≡ Some m → (code : Code) → code_of m.kind ≡ Some code →
        (index : ℕ) (line : Line) → slice_get code.lines index ≡ Some line → (t : DeclaredType) → line.instruction ≡ NewArray t → t.brackets < MOST_BRACKETS }
{}

/// A class has a number of 16 bits.
pub fn classes_are_few()
    ensures { (tree : Tree) → IsLegal tree → (n : ℕ) (c : ClassName) → class_name tree n ≡ Some c → n < 2 ^ 16 }
{}

/// An object has few fields, and there are few static ones: their numbers have 32 bits.
pub fn fields_are_few()
    ensures slots { (tree : Tree) → IsLegal tree → (n : ℕ) (c : ClassName) → class_name tree n ≡ Some c → length (slot_types tree c) < 2 ^ 32 }
    ensures instance { (tree : Tree) → IsLegal tree → (key : FieldKey) (n c : ℕ) → class_name tree c ≡ Some key.declared_in → instance_slot tree key ≡ Some n → n < 2 ^ 32 }
    ensures statics { (tree : Tree) → IsLegal tree → (key : FieldKey) (n : ℕ) → static_slot tree key ≡ Some n → n < 2 ^ 32 }
    ensures static_count { (tree : Tree) → IsLegal tree → length (static_fields tree) ≤ MOST_STATIC_FIELDS }
{}

/// There are fewer literals than addresses for them.
pub fn literals_are_few()
    ensures { (tree : Tree) → IsLegal tree → length (literals_of tree) ≤ MOST_METHODS * MOST_INSTRUCTIONS }
{}
