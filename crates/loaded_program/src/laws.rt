//! Laws of the methods' numbers. Each function has an empty body, and its contract is the law.

ghost use Rattle.std.specs.Prelude.{◌≡◌, ℕ, Some, slice_get};
ghost use Rattle.cil_model.specs.declared.types.ClassName.{ClassName};
ghost use Rattle.cil_model.specs.declared.trees.Tree.{Tree};
ghost use Rattle.cil_model.specs.declared.trees.Method.{Method};
ghost use Rattle.cil_model.specs.Chains.{methods_declared};
ghost use Rattle.cil_model.specs.Legality.{IsLegal};
ghost use Rattle.loaded_program.specs.AllMethods.{all_methods};
ghost use Rattle.loaded_program.specs.MethodNumbers.{number_of};

/// In a legal tree the number of each method, by its class, name and signature, is its index among all methods.
pub fn methods_have_one_number()
    ensures { (tree : Tree) → IsLegal tree → (n : ℕ) (found : ClassName × Method) → slice_get (all_methods tree) n ≡ Some found → number_of tree found ≡ Some n }
{}

/// In a legal tree each method that a class declares has a number, and stands there.
pub fn declared_methods_have_ids()
    ensures some { (tree : Tree) → IsLegal tree → (k : ℕ) (found : ClassName × Method) → slice_get (methods_declared tree found.0) k ≡ Some found.1 →
        (n : ℕ) × (number_of tree found ≡ Some n) × (slice_get (all_methods tree) n ≡ Some found) }
    ensures there { (tree : Tree) → IsLegal tree → (k : ℕ) (found : ClassName × Method) → slice_get (methods_declared tree found.0) k ≡ Some found.1 →
        (n : ℕ) → number_of tree found ≡ Some n → slice_get (all_methods tree) n ≡ Some found }
{}
