//! Laws of slots. Each function has an empty body, and its contract is the law.

ghost use Rattle.std.specs.Prelude.{◌≡◌, ◌≢◌, ◌+◌, ℕ, Some, length, slice_get};
ghost use Rattle.cil_model.specs.declared.types.ClassName.{ClassName};
ghost use Rattle.cil_model.specs.declared.types.DeclaredType.{DeclaredType};
ghost use Rattle.cil_model.specs.declared.trees.Tree.{Tree};
ghost use Rattle.cil_model.specs.Assignable.{is_reference};
ghost use Rattle.cil_model.specs.Fields.{FieldKey, hidden_slots, instance_fields, instance_slot, is_reference_slot, slot_types};
ghost use Rattle.cil_model.specs.Legality.{IsLegal};

/// In a legal tree the slot of each instance field of an object is its index after the hidden slot, whichever class of the chain
/// declares it. So no two fields of an object have the same slot, and what a slot is said to hold is what the field of this slot holds.
pub fn slots_are_apart()
    ensures indices { (tree : Tree) → IsLegal tree → (c : ClassName) (i : ℕ) (f : FieldKey × DeclaredType) → slice_get (instance_fields tree c) i ≡ Some f → instance_slot tree f.0 ≡ Some (length (hidden_slots tree c) + i) }
    ensures apart { (tree : Tree) → IsLegal tree → (c : ClassName) (i j : ℕ) (f g : FieldKey × DeclaredType) → slice_get (instance_fields tree c) i ≡ Some f → slice_get (instance_fields tree c) j ≡ Some g → i ≢ j → instance_slot tree f.0 ≢ instance_slot tree g.0 }
    ensures types { (tree : Tree) → IsLegal tree → (c : ClassName) (i : ℕ) (f : FieldKey × DeclaredType) → slice_get (instance_fields tree c) i ≡ Some f → (n : ℕ) → instance_slot tree f.0 ≡ Some n → slice_get (slot_types tree c) n ≡ Some (Some f.1) }
    ensures references { (tree : Tree) → IsLegal tree → (c : ClassName) (i : ℕ) (f : FieldKey × DeclaredType) → slice_get (instance_fields tree c) i ≡ Some f → (n : ℕ) → instance_slot tree f.0 ≡ Some n → is_reference_slot tree c n ≡ is_reference f.1 }
{}
