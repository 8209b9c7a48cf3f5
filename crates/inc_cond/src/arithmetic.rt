//! What operators make of values (ISO/IEC 9899:2018, 6.5.3 to 6.5.14, in 64 bits).
ghost use Rattle.std.specs.Prelude.{◌≡◌, ◌≢◌};
ghost use Rattle.inc_cond.specs.Values as spec;
ghost use Rattle.inc_cond.specs.Evaluation.{decided, combined, joined_value};

use crate::faults::CondFault;
use crate::operators::{Binary, Unary};
use crate::values::Value;

impl Unary {
    /// The value that the operator makes of its operand.
    pub fn apply(self, value: Value) -> Value
        ensures { result ≡ spec.unary_value self value }
    {
        match self {
            Unary::Plus => value,
            Unary::Minus => Value {
                unsigned: value.unsigned,
                bits: value.bits.wrapping_neg(),
            },
            Unary::Not => Value::truth(value.is_zero()),
            Unary::Complement => Value {
                unsigned: value.unsigned,
                bits: !value.bits,
            },
        }
    }
}

impl Binary {
    /// The value that the operator makes of what its operands give, the left one first. The right one counts only where it is evaluated.
    pub fn apply(
        self,
        left: Result<Value, CondFault>,
        right: Result<Value, CondFault>,
    ) -> Result<Value, CondFault>
        ensures { result ≡ joined_value self left right }
    {
        let left = left?;
        match self.decided(left) {
            Some(value) => Ok(value),
            None => self.combined(left, right?),
        }
    }

    /// What the left operand decides alone.
    fn decided(self, left: Value) -> Option<Value>
        ensures { result ≡ decided self left }
    {
        match self {
            Binary::Or if !left.is_zero() => Some(Value::truth(true)),
            Binary::And if left.is_zero() => Some(Value::truth(false)),
            _ => None,
        }
    }

    /// The value of two operands, which are converted to one type first, but for the count of a shift.
    fn combined(self, left: Value, right: Value) -> Result<Value, CondFault>
        ensures { result ≡ combined self left right }
    {
        let unsigned = self.common_type(left.unsigned, right.unsigned);
        let left = left.as_type(unsigned);
        match self {
            Binary::ShiftLeft | Binary::ShiftRight => self.value_of(left, right),
            _ => self.value_of(left, right.as_type(unsigned)),
        }
    }

    /// The value of two operands of one type, but for the count of a shift.
    fn value_of(self, left: Value, right: Value) -> Result<Value, CondFault>
        ensures { result ≡ spec.binary_value self left right }
    {
        match self {
            Binary::Or => Ok(Value::truth(!left.is_zero() || !right.is_zero())),
            Binary::And => Ok(Value::truth(!left.is_zero() && !right.is_zero())),
            Binary::BitOr => Ok(left.with_bits(left.bits | right.bits)),
            Binary::BitXor => Ok(left.with_bits(left.bits ^ right.bits)),
            Binary::BitAnd => Ok(left.with_bits(left.bits & right.bits)),
            Binary::Equal => Ok(Value::truth(left.bits == right.bits)),
            Binary::Unequal => Ok(Value::truth(left.bits != right.bits)),
            Binary::Less => Ok(Value::truth(left.is_below(right))),
            Binary::Greater => Ok(Value::truth(right.is_below(left))),
            Binary::LessEqual => Ok(Value::truth(!right.is_below(left))),
            Binary::GreaterEqual => Ok(Value::truth(!left.is_below(right))),
            Binary::ShiftLeft => left.shifted_left(right),
            Binary::ShiftRight => left.shifted_right(right),
            Binary::Add => Ok(left.with_bits(left.bits.wrapping_add(right.bits))),
            Binary::Subtract => Ok(left.with_bits(left.bits.wrapping_sub(right.bits))),
            Binary::Multiply => Ok(left.with_bits(left.bits.wrapping_mul(right.bits))),
            Binary::Divide => left.divided_by(right),
            Binary::Remainder => left.remainder_by(right),
        }
    }
}

impl Value {
    /// Other bits, of the same type.
    fn with_bits(self, bits: u64) -> Value
        ensures { result ≡ record { unsigned = self.unsigned; bits = bits } }
    {
        Value {
            unsigned: self.unsigned,
            bits,
        }
    }

    /// Whether it is below another of its type.
    fn is_below(self, other: Value) -> bool
        ensures { result ≡ spec.is_below self other }
    {
        if self.unsigned {
            self.bits < other.bits
        } else {
            // Both from the least number on.
            self.bits.wrapping_add(1 << 63) < other.bits.wrapping_add(1 << 63)
        }
    }

    /// `<<` with its count.
    fn shifted_left(self, count: Value) -> Result<Value, CondFault>
        ensures { result ≡ spec.binary_value Binary.ShiftLeft self count }
    {
        if count.bits > 63 {
            return Err(CondFault::BadShift);
        }
        Ok(self.with_bits(self.bits << count.bits))
    }

    /// `>>` with its count.
    fn shifted_right(self, count: Value) -> Result<Value, CondFault>
        ensures { result ≡ spec.binary_value Binary.ShiftRight self count }
    {
        if count.bits > 63 {
            return Err(CondFault::BadShift);
        }
        if self.is_negative() {
            // What is shifted in are ones.
            Ok(self.with_bits(!(!self.bits >> count.bits)))
        } else {
            Ok(self.with_bits(self.bits >> count.bits))
        }
    }

    /// The quotient towards 0.
    fn divided_by(self, divisor: Value) -> Result<Value, CondFault>
        ensures { result ≡ spec.binary_value Binary.Divide self divisor }
    {
        if divisor.is_zero() {
            return Err(CondFault::DivideByZero);
        }
        let negative = self.is_negative() != divisor.is_negative();
        Ok(self.signed_as(negative, self.magnitude() / divisor.magnitude()))
    }

    /// What the quotient leaves, with the sign of the dividend.
    fn remainder_by(self, divisor: Value) -> Result<Value, CondFault>
        ensures { result ≡ spec.binary_value Binary.Remainder self divisor }
    {
        if divisor.is_zero() {
            return Err(CondFault::DivideByZero);
        }
        Ok(self.signed_as(self.is_negative(), self.magnitude() % divisor.magnitude()))
    }

    /// The number of this size with this sign, of the same type.
    fn signed_as(self, negative: bool, size: u64) -> Value
        ensures { result ≡ spec.with_sign self.unsigned negative size }
    {
        self.with_bits(if negative { size.wrapping_neg() } else { size })
    }

    /// The distance from 0.
    fn magnitude(self) -> u64
        ensures { result ≡ spec.magnitude self }
    {
        if self.is_negative() {
            self.bits.wrapping_neg()
        } else {
            self.bits
        }
    }
}
