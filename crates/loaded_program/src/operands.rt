//! Operands of instructions, by numbers of fewer bits.

ghost use Rattle.std.specs.Prelude.{◌≡◌, ◌<◌, ◌^◌, ℕ, Some};
ghost use Rattle.object_memory.specs.declared.addresses.Addr.{Addr as AnyAddr};
ghost use Rattle.object_memory.specs.declared.addresses.TheConstants.{FIRST_LITERAL as LITERALS};
ghost use Rattle.object_memory.specs.declared.kinds.ArrayElement.{ArrayElement as AnyElement};
ghost use Rattle.object_memory.specs.declared.kinds.ElementType.{ElementType as AnyType};
ghost use Rattle.object_memory.specs.Cells.{literal};
ghost use Rattle.loaded_program.specs.Operands.{linked_array, class_in, linked_element};

use name_tables::ids::MethodId;
use object_memory::{Addr, ArrayElement, ElementType};
use resolved_code::types::{ResolvedElement, ResolvedType};

/// How many literals have addresses.
const MOST_LITERALS: u32 = 2_147_483_648;

/// A number of 32 bits; the largest where it has more.
pub(crate) fn in_32_bits(number: usize) -> u32
    ensures { number < 2 ^ 32 → result ≡ number }
{
    match u32::try_from(number) {
        Ok(number) => number,
        Err(_) => u32::MAX,
    }
}

/// A number of 16 bits; the largest where it has more.
fn in_16_bits(number: usize) -> u16
    ensures { number < 2 ^ 16 → result ≡ number }
{
    match u16::try_from(number) {
        Ok(number) => number,
        Err(_) => u16::MAX,
    }
}

/// A number of 8 bits; the largest where it has more.
fn in_8_bits(number: u32) -> u8
    ensures { number < 256 → result ≡ number }
{
    match u8::try_from(number) {
        Ok(number) => number,
        Err(_) => u8::MAX,
    }
}

/// The number of a member's class. Any where it has more than 16 bits.
pub(crate) fn class_of(member: MethodId) -> u16
    ensures { (n : ℕ) → class_in member ≡ Some n → result ≡ n }
{
    in_16_bits(member.class.number())
}

/// The address of a literal. Null where no literal can have this number.
pub(crate) fn literal_address(number: usize) -> Addr
    ensures { number < LITERALS → result ≡ literal number }
{
    let number = in_32_bits(number);
    if number < MOST_LITERALS {
        Addr::literal(number)
    } else {
        Addr::null()
    }
}

/// What an array of these elements is made by. Any where the number of a class has more than 16 bits.
fn element_type(element: ResolvedElement) -> ElementType
    ensures { (held : AnyType) → linked_element element ≡ Some held → result ≡ held }
{
    match element {
        ResolvedElement::Int32 => ElementType::Int32,
        ResolvedElement::Int64 => ElementType::Int64,
        ResolvedElement::Object => ElementType::Object,
        ResolvedElement::String => ElementType::String,
        ResolvedElement::Class(class) => ElementType::Class(in_16_bits(class)),
    }
}

/// What an array of these is made by. Any where the number of a class or of brackets is too large.
pub(crate) fn array_element(held: ResolvedType) -> ArrayElement
    ensures { (required : AnyElement) → linked_array held ≡ Some required → result ≡ required }
{
    ArrayElement {
        element: element_type(held.element),
        brackets: in_8_bits(held.brackets),
    }
}
