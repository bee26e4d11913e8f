//! The operations of the machine on two integers of one size, or on one.

ghost use Rattle.std.specs.Prelude.{◌≡◌, ℤ, pos, Some};
ghost use Rattle.std.specs.Int.{Width, w32, w64};
ghost use Rattle.std.specs.Ordering.{int_eq};
ghost use Rattle.reference_machine.specs.Values.{Value, Int32, Int64};
ghost use Rattle.reference_machine.specs.Arithmetic.{binary, unary, shift, comparison_holds, branch_values, result_as};

use cil_model::instructions::{
    BinaryOperation, BranchComparison, Comparison, ShiftOperation, UnaryOperation,
};
use cil_model::reports::Fault;

/// An integer of the machine: `i32` or `i64`, with what its instructions give (ECMA-335 III.1.5).
pub trait Integer: Copy {
    // how many bytes it has
    ghost width: { Width };

    // the number that it represents
    ghost number: { Self → ℤ };

    // what lies on a stack for it
    ghost stack_value: { Self → Value };

    /// `x op y`. `Add`, `Subtract` and `Multiply` keep the low bits (III.3.1, III.3.64, III.3.48).
    ///
    /// - `Overflow`: the exact sum, difference or product of `add.ovf`, `sub.ovf` or `mul.ovf` does not fit (III.3.2,
    ///   III.3.65, III.3.49).
    /// - `DivideByZero`: `y` is 0 in a division or a remainder (III.3.31, III.3.55).
    /// - `Arithmetic`: the least value is divided by -1, or its remainder by -1 is asked for (the remainder is this
    ///   profile's).
    fn binary(op: BinaryOperation, x: Self, y: Self) -> Result<Self, Fault>
        ensures { result_as number result ≡ binary width op (number x) (number y) };

    /// `-x`, which is the least value itself at the least value, or the complement of each bit (III.3.50, III.3.52).
    fn unary(op: UnaryOperation, x: Self) -> Self
        ensures { number result ≡ unary width op (number x) };

    /// `x` shifted by the low five bits of the amount, or six where `x` has 64 bits (III.3.58 to III.3.60; the mask is
    /// this profile's). `Right` keeps the sign, `RightUnsigned` brings in zeros.
    fn shift(op: ShiftOperation, x: Self, amount: i32) -> Self
        ensures { number result ≡ shift width op (number x) amount };

    /// Whether `ceq`, `cgt` or `clt` gives 1 (III.3.21, III.3.22, III.3.25).
    fn compare(op: Comparison, x: Self, y: Self) -> bool
        ensures { result ≡ comparison_holds op (number x) (number y) };

    /// Whether a branch that compares `x` with `y` is taken (III.3.5 to III.3.14).
    fn branches(op: BranchComparison, x: Self, y: Self) -> bool
        ensures { branch_values op (stack_value x) (stack_value y) ≡ Some result };

    /// Whether `brfalse` is taken, and `brtrue` is not (III.3.17, III.3.18).
    fn is_zero(x: Self) -> bool
        ensures { result ≡ int_eq (number x) (pos 0) };
}

// The bodies of the methods, for both sizes: `Self` is the size's type.

macro_rules! binary_result {
    ($op:expr, $x:expr, $y:expr) => {
        match $op {
            BinaryOperation::Add => Ok($x.wrapping_add($y)),
            BinaryOperation::Subtract => Ok($x.wrapping_sub($y)),
            BinaryOperation::Multiply => Ok($x.wrapping_mul($y)),
            BinaryOperation::AddOverflow => $x.checked_add($y).ok_or(Fault::Overflow),
            BinaryOperation::SubtractOverflow => $x.checked_sub($y).ok_or(Fault::Overflow),
            BinaryOperation::MultiplyOverflow => $x.checked_mul($y).ok_or(Fault::Overflow),
            BinaryOperation::Divide => divided!($x, $y, $x / $y),
            BinaryOperation::Remainder => divided!($x, $y, $x % $y),
            BinaryOperation::And => Ok($x & $y),
            BinaryOperation::Or => Ok($x | $y),
            BinaryOperation::ExclusiveOr => Ok($x ^ $y),
        }
    };
}

macro_rules! divided {
    ($x:expr, $y:expr, $result:expr) => {
        if $y == 0 {
            Err(Fault::DivideByZero)
        } else if $x == Self::MIN && $y == -1 {
            Err(Fault::Arithmetic)
        } else {
            Ok($result)
        }
    };
}

macro_rules! unary_result {
    ($op:expr, $x:expr) => {
        match $op {
            UnaryOperation::Negate => $x.wrapping_neg(),
            UnaryOperation::Complement => !$x,
        }
    };
}

macro_rules! shifted {
    ($op:expr, $x:expr, $amount:expr) => {{
        let bits = $amount.cast_unsigned() % Self::BITS;
        match $op {
            ShiftOperation::Left => $x << bits,
            ShiftOperation::Right => $x >> bits,
            ShiftOperation::RightUnsigned => ($x.cast_unsigned() >> bits).cast_signed(),
        }
    }};
}

macro_rules! holds {
    ($op:expr, $x:expr, $y:expr) => {
        match $op {
            Comparison::Equal => $x == $y,
            Comparison::Greater => $x > $y,
            Comparison::Less => $x < $y,
        }
    };
}

macro_rules! is_taken {
    ($op:expr, $x:expr, $y:expr) => {
        match $op {
            BranchComparison::Equal => $x == $y,
            BranchComparison::NotEqual => $x != $y,
            BranchComparison::GreaterOrEqual => $x >= $y,
            BranchComparison::Greater => $x > $y,
            BranchComparison::LessOrEqual => $x <= $y,
            BranchComparison::Less => $x < $y,
        }
    };
}

impl Integer for i32 {
    ghost width = { w32 };

    ghost number = { λ x. x };

    ghost stack_value = { Int32 };

    #[inline]
    fn binary(op: BinaryOperation, x: i32, y: i32) -> Result<i32, Fault> {
        binary_result!(op, x, y)
    }

    #[inline]
    fn unary(op: UnaryOperation, x: i32) -> i32 {
        unary_result!(op, x)
    }

    #[inline]
    fn shift(op: ShiftOperation, x: i32, amount: i32) -> i32 {
        shifted!(op, x, amount)
    }

    #[inline]
    fn compare(op: Comparison, x: i32, y: i32) -> bool {
        holds!(op, x, y)
    }

    #[inline]
    fn branches(op: BranchComparison, x: i32, y: i32) -> bool {
        is_taken!(op, x, y)
    }

    #[inline]
    fn is_zero(x: i32) -> bool {
        x == 0
    }
}

impl Integer for i64 {
    ghost width = { w64 };

    ghost number = { λ x. x };

    ghost stack_value = { Int64 };

    #[inline]
    fn binary(op: BinaryOperation, x: i64, y: i64) -> Result<i64, Fault> {
        binary_result!(op, x, y)
    }

    #[inline]
    fn unary(op: UnaryOperation, x: i64) -> i64 {
        unary_result!(op, x)
    }

    #[inline]
    fn shift(op: ShiftOperation, x: i64, amount: i32) -> i64 {
        shifted!(op, x, amount)
    }

    #[inline]
    fn compare(op: Comparison, x: i64, y: i64) -> bool {
        holds!(op, x, y)
    }

    #[inline]
    fn branches(op: BranchComparison, x: i64, y: i64) -> bool {
        is_taken!(op, x, y)
    }

    #[inline]
    fn is_zero(x: i64) -> bool {
        x == 0
    }
}
