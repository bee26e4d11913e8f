//! What a method's kind says of it.

ghost use Rattle.std.specs.Prelude.{◌≡◌};
ghost use Rattle.cil_model.specs.Chains.{is_static, is_virtual, is_abstract_method, is_new_slot_method};

use cil_model::trees::MethodKind;

/// Whether it is called without an object (ECMA-335 II.15.2).
pub fn is_static(kind: &MethodKind) -> bool
    ensures { result ≡ is_static kind.now }
{
    matches!(kind, MethodKind::Static(_))
}

/// An abstract method is virtual too (ECMA-335 II.15.4.2).
pub fn is_virtual(kind: &MethodKind) -> bool
    ensures { result ≡ is_virtual kind.now }
{
    matches!(
        kind,
        MethodKind::Virtual { .. } | MethodKind::Abstract { .. }
    )
}

/// Whether it has no body, and a class below has to define one (ECMA-335 II.15.4.2).
pub fn is_abstract_method(kind: &MethodKind) -> bool
    ensures { result ≡ is_abstract_method kind.now }
{
    matches!(kind, MethodKind::Abstract { .. })
}

/// Whether it takes a new slot (ECMA-335 II.10.3.1).
pub fn is_new_slot_method(kind: &MethodKind) -> bool
    ensures { result ≡ is_new_slot_method kind.now }
{
    match kind {
        MethodKind::Static(_) | MethodKind::Instance(_) => false,
        MethodKind::Virtual { is_new_slot, .. } => *is_new_slot,
        MethodKind::Abstract { is_new_slot } => *is_new_slot,
    }
}
