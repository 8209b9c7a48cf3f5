//! Values of controlling expressions.
ghost use Rattle.std.specs.Prelude.{◌≡◌, ◌^◌, ◌<◌};
ghost use Rattle.inc_cond.specs.Values as spec;

/// The value of a controlling expression (ISO/IEC 9899:2018, 6.10.1 paragraph 4), of the widest signed or unsigned type.
#[derive(Clone, Copy, Debug, PartialEq, Eq)]
pub enum CondValue {
    /// Of the type `intmax_t`.
    Signed(i64),
    /// Of the type `uintmax_t`.
    Unsigned(u64),
}

/// A value on the way: its type, and its bits in two's complement.
#[derive(Clone, Copy, Debug, PartialEq, Eq)]
pub struct Value {
    /// Whether its type is the unsigned one.
    pub unsigned: bool,
    /// Its bits.
    pub bits: u64,
}

impl Value {
    /// A truth value: a signed 0 or 1.
    pub fn truth(is: bool) -> Value
        ensures { result ≡ spec.truth is }
    {
        Value {
            unsigned: false,
            bits: u64::from(is),
        }
    }

    /// Whether it is 0.
    pub fn is_zero(self) -> bool
        ensures { result ≡ spec.is_zero self }
    {
        self.bits == 0
    }

    /// Whether it is a signed value below 0.
    pub fn is_negative(self) -> bool
        ensures { result ≡ spec.is_negative self }
    {
        !self.unsigned && self.bits >= 1 << 63
    }

    /// Converted to a type: the bits stay.
    pub fn as_type(self, unsigned: bool) -> Value
        ensures { result ≡ spec.as_type unsigned self }
    {
        Value {
            unsigned,
            bits: self.bits,
        }
    }

    /// The value as callers see it.
    pub fn seen(self) -> CondValue
        ensures { result ≡ spec.cond_value self }
    {
        if self.unsigned {
            CondValue::Unsigned(self.bits)
        } else if self.is_negative() {
            CondValue::Signed(-1 - !self.bits as i64)
        } else {
            CondValue::Signed(self.bits as i64)
        }
    }
}
