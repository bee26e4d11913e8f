//! From one size of integers to the other.

ghost use Rattle.std.specs.Prelude.{◌≡◌, ◌%◌, ◌^◌};
ghost use Rattle.std.specs.Int.{w32, w64, cast_signed, cast_unsigned};

/// The low 32 bits, read with a sign: `conv.i4` of an integer of 64 bits (ECMA-335 III.3.27). It never faults.
#[inline]
pub fn truncate(x: i64) -> i32
    ensures { result ≡ cast_signed w32 (cast_unsigned w64 x % 2 ^ 32) }
{
    let low = x.cast_unsigned() % 4_294_967_296;
    (low as u32).cast_signed()
}

/// The same number in 64 bits: `conv.i8` of an integer of 32 bits (ECMA-335 III.3.27). It never faults.
#[inline]
pub fn sign_extended(x: i32) -> i64
    ensures { result ≡ x }
{
    i64::from(x)
}
