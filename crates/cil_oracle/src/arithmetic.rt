//! Operations on integers (ECMA-335 III.1.5 and III.3). Those on 32 bits are made in 64 bits, where their exact results fit.

ghost use Rattle.std.specs.Prelude.{◌<◌};

use crate::effects::Halt;
use crate::values::Value;
use cil_model::instructions::{
    BinaryOperation, BranchComparison, Comparison, ShiftOperation, UnaryOperation,
};
use cil_model::reports::Fault;

/// The low 32 bits, with a sign.
fn low_32(number: i64) -> i32 {
    ((number.cast_unsigned() & 0xffff_ffff) as u32).cast_signed()
}

/// An operation on two integers of 64 bits.
fn binary_64(op: BinaryOperation, x: i64, y: i64) -> Result<i64, Fault> {
    match op {
        BinaryOperation::Add => Ok(x.wrapping_add(y)),
        BinaryOperation::Subtract => Ok(x.wrapping_sub(y)),
        BinaryOperation::Multiply => Ok(x.wrapping_mul(y)),
        BinaryOperation::AddOverflow => x.checked_add(y).ok_or(Fault::Overflow),
        BinaryOperation::SubtractOverflow => x.checked_sub(y).ok_or(Fault::Overflow),
        BinaryOperation::MultiplyOverflow => x.checked_mul(y).ok_or(Fault::Overflow),
        BinaryOperation::Divide | BinaryOperation::Remainder if y == 0 => Err(Fault::DivideByZero),
        BinaryOperation::Divide => x.checked_div(y).ok_or(Fault::Arithmetic),
        BinaryOperation::Remainder => x.checked_rem(y).ok_or(Fault::Arithmetic),
        BinaryOperation::And => Ok(x & y),
        BinaryOperation::Or => Ok(x | y),
        BinaryOperation::ExclusiveOr => Ok(x ^ y),
    }
}

/// An operation on two integers of 32 bits. The least one has no quotient and no remainder by -1 (the remainder is this
/// profile's).
fn binary_32(op: BinaryOperation, x: i32, y: i32) -> Result<i32, Fault> {
    let exact = binary_64(op, i64::from(x), i64::from(y))?;
    match op {
        BinaryOperation::AddOverflow
        | BinaryOperation::SubtractOverflow
        | BinaryOperation::MultiplyOverflow => i32::try_from(exact).or(Err(Fault::Overflow)),
        BinaryOperation::Divide | BinaryOperation::Remainder if x == i32::MIN && y == -1 => {
            Err(Fault::Arithmetic)
        }
        _ => Ok(low_32(exact)),
    }
}

/// An operation on two integers of one size.
pub fn binary(op: BinaryOperation, v: Value, w: Value) -> Result<Value, Halt> {
    let result = match (v, w) {
        (Value::Int32(x), Value::Int32(y)) => binary_32(op, x, y).map(Value::Int32),
        (Value::Int64(x), Value::Int64(y)) => binary_64(op, x, y).map(Value::Int64),
        _ => return Err(Halt::Sticks),
    };
    result.map_err(Halt::Raises)
}

/// An operation on one integer. The negative of the least one is itself.
pub fn unary(op: UnaryOperation, v: Value) -> Result<Value, Halt> {
    match (op, v) {
        (UnaryOperation::Negate, Value::Int32(x)) => Ok(Value::Int32(x.wrapping_neg())),
        (UnaryOperation::Negate, Value::Int64(x)) => Ok(Value::Int64(x.wrapping_neg())),
        (UnaryOperation::Complement, Value::Int32(x)) => Ok(Value::Int32(!x)),
        (UnaryOperation::Complement, Value::Int64(x)) => Ok(Value::Int64(!x)),
        _ => Err(Halt::Sticks),
    }
}

/// A shift by the low five or six bits of the amount (the mask is this profile's).
pub fn shift(op: ShiftOperation, v: Value, amount: Value) -> Result<Value, Halt> {
    match (v, amount) {
        (Value::Int32(x), Value::Int32(amount)) => {
            let unsigned = u64::from(x.cast_unsigned());
            let shifted = shift_by(op, i64::from(x), unsigned, amount.cast_unsigned() % 32);
            Ok(Value::Int32(low_32(shifted)))
        }
        (Value::Int64(x), Value::Int32(amount)) => {
            let shifted = shift_by(op, x, x.cast_unsigned(), amount.cast_unsigned() % 64);
            Ok(Value::Int64(shifted))
        }
        _ => Err(Halt::Sticks),
    }
}

/// A shift of an integer, which is also given without a sign.
fn shift_by(op: ShiftOperation, x: i64, unsigned: u64, bits: u32) -> i64
    requires { bits < 64 }
{
    match op {
        ShiftOperation::Left => x << bits,
        ShiftOperation::Right => x >> bits,
        ShiftOperation::RightUnsigned => (unsigned >> bits).cast_signed(),
    }
}

/// `ceq`, `cgt` and `clt`: 1 where the comparison holds, otherwise 0.
pub fn compare(op: Comparison, v: Value, w: Value) -> Result<Value, Halt> {
    let holds = holds(op, v, w)?;
    Ok(Value::Int32(i32::from(holds)))
}

/// Whether a comparison holds: an order of integers of one size alone, and whether two references are of one object.
fn holds(op: Comparison, v: Value, w: Value) -> Result<bool, Halt> {
    let (x, y) = match (v, w) {
        (Value::Int32(x), Value::Int32(y)) => (i64::from(x), i64::from(y)),
        (Value::Int64(x), Value::Int64(y)) => (x, y),
        (Value::Null | Value::Reference(_), Value::Null | Value::Reference(_))
            if op == Comparison::Equal => {
            return Ok(v == w);
        }
        _ => return Err(Halt::Sticks),
    };
    Ok(match op {
        Comparison::Equal => x == y,
        Comparison::Greater => x > y,
        Comparison::Less => x < y,
    })
}

/// Whether a branch that compares is taken.
pub fn is_taken(op: BranchComparison, v: Value, w: Value) -> Result<bool, Halt> {
    let (test, required) = match op {
        BranchComparison::Equal => (Comparison::Equal, true),
        BranchComparison::NotEqual => (Comparison::Equal, false),
        BranchComparison::GreaterOrEqual => (Comparison::Less, false),
        BranchComparison::Greater => (Comparison::Greater, true),
        BranchComparison::LessOrEqual => (Comparison::Greater, false),
        BranchComparison::Less => (Comparison::Less, true),
    };
    Ok(holds(test, v, w)? == required)
}

/// Whether the value is neither zero nor null.
pub fn is_set(v: Value) -> Result<bool, Halt> {
    match v {
        Value::Int32(x) => Ok(x != 0),
        Value::Int64(x) => Ok(x != 0),
        Value::Null => Ok(false),
        Value::Reference(_) => Ok(true),
        Value::Native(_) => Err(Halt::Sticks),
    }
}

/// `conv.i4`: the low 32 bits.
pub fn to_int32(v: Value) -> Result<Value, Halt> {
    match v {
        Value::Int32(_) => Ok(v),
        Value::Int64(x) => Ok(Value::Int32(low_32(x))),
        Value::Native(x) => Ok(Value::Int32(low_32(x))),
        _ => Err(Halt::Sticks),
    }
}

/// `conv.i8`: the same number.
pub fn to_int64(v: Value) -> Result<Value, Halt> {
    match v {
        Value::Int32(x) => Ok(Value::Int64(i64::from(x))),
        Value::Int64(_) => Ok(v),
        Value::Native(x) => Ok(Value::Int64(x)),
        _ => Err(Halt::Sticks),
    }
}
