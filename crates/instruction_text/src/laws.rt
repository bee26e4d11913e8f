//! Laws of the definitions. Each function has an empty body, and its contract is the law.
ghost use Rattle.cil_model.specs.declared.instructions.Instruction.{Instruction};
ghost use Rattle.cil_model.specs.declared.instructions.MethodName.{MethodName};
ghost use Rattle.cil_model.specs.declared.types.ClassName.{ClassName};
ghost use Rattle.instruction_text.specs.Characters.{IsPrintable};
ghost use Rattle.instruction_text.specs.Texts.{class_text, instruction_text, method_name_text};

/// What is written of an instruction, of a class or of a method's name is printable, whatever characters it is of: one line, with no
/// tab.
pub fn texts_are_printable()
    ensures instructions { (i : Instruction) → IsPrintable (instruction_text i) }
    ensures classes { (c : ClassName) → IsPrintable (class_text c) }
    ensures methods { (name : MethodName) → IsPrintable (method_name_text name) }
{}
