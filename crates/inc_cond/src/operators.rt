//! The operators of controlling expressions.
ghost use Rattle.std.specs.Prelude.{◌≡◌, [], ◌∷◌};
ghost use Rattle.inc_cond.specs.Expressions as spec;
ghost use Rattle.inc_cond.specs.Evaluation as types;

/// An operator before its operand (ISO/IEC 9899:2018, 6.5.3.3).
#[derive(Clone, Copy, Debug, PartialEq, Eq)]
pub enum Unary {
    /// `+`.
    Plus,
    /// `-`.
    Minus,
    /// `!`.
    Not,
    /// `~`.
    Complement,
}

/// An operator between two operands (6.5.5 to 6.5.14).
#[derive(Clone, Copy, Debug, PartialEq, Eq)]
pub enum Binary {
    /// `||`.
    Or,
    /// `&&`.
    And,
    /// `|`.
    BitOr,
    /// `^`.
    BitXor,
    /// `&`.
    BitAnd,
    /// `==`.
    Equal,
    /// `!=`.
    Unequal,
    /// `<`.
    Less,
    /// `>`.
    Greater,
    /// `<=`.
    LessEqual,
    /// `>=`.
    GreaterEqual,
    /// `<<`.
    ShiftLeft,
    /// `>>`.
    ShiftRight,
    /// `+`.
    Add,
    /// `-`.
    Subtract,
    /// `*`.
    Multiply,
    /// `/`.
    Divide,
    /// `%`.
    Remainder,
}

impl Unary {
    /// The operator that is spelled so.
    pub fn of(sign: &[u8]) -> Option<Unary>
        ensures { result ≡ spec.unary_of sign.now }
    {
        match sign {
            [b'+'] => Some(Unary::Plus),
            [b'-'] => Some(Unary::Minus),
            [b'!'] => Some(Unary::Not),
            [b'~'] => Some(Unary::Complement),
            _ => None,
        }
    }

    /// Whether what it gives is unsigned, where its operand is or is not.
    pub fn type_of(self, unsigned: bool) -> bool
        ensures { result ≡ types.unary_type self unsigned }
    {
        !matches!(self, Unary::Not) && unsigned
    }
}

impl Binary {
    /// The operator that is spelled so.
    pub fn of(sign: &[u8]) -> Option<Binary>
        ensures { result ≡ spec.binary_of sign.now }
    {
        match sign {
            [one] => Binary::of_one(*one),
            [one, other] => Binary::of_two(*one, *other),
            _ => None,
        }
    }

    /// The operator of one byte.
    fn of_one(sign: u8) -> Option<Binary>
        ensures { result ≡ spec.binary_of (sign ∷ []) }
    {
        match sign {
            b'|' => Some(Binary::BitOr),
            b'^' => Some(Binary::BitXor),
            b'&' => Some(Binary::BitAnd),
            b'<' => Some(Binary::Less),
            b'>' => Some(Binary::Greater),
            b'+' => Some(Binary::Add),
            b'-' => Some(Binary::Subtract),
            b'*' => Some(Binary::Multiply),
            b'/' => Some(Binary::Divide),
            b'%' => Some(Binary::Remainder),
            _ => None,
        }
    }

    /// The operator of two bytes.
    fn of_two(first: u8, second: u8) -> Option<Binary>
        ensures { result ≡ spec.binary_of (first ∷ second ∷ []) }
    {
        match (first, second) {
            (b'|', b'|') => Some(Binary::Or),
            (b'&', b'&') => Some(Binary::And),
            (b'=', b'=') => Some(Binary::Equal),
            (b'!', b'=') => Some(Binary::Unequal),
            (b'<', b'=') => Some(Binary::LessEqual),
            (b'>', b'=') => Some(Binary::GreaterEqual),
            (b'<', b'<') => Some(Binary::ShiftLeft),
            (b'>', b'>') => Some(Binary::ShiftRight),
            _ => None,
        }
    }

    /// How tightly it binds, the weakest first.
    pub fn strength(self) -> u8
        ensures { result ≡ spec.binary_strength self }
    {
        match self {
            Binary::Or => 1,
            Binary::And => 2,
            Binary::BitOr => 3,
            Binary::BitXor => 4,
            Binary::BitAnd => 5,
            Binary::Equal | Binary::Unequal => 6,
            Binary::Less | Binary::Greater | Binary::LessEqual | Binary::GreaterEqual => 7,
            Binary::ShiftLeft | Binary::ShiftRight => 8,
            Binary::Add | Binary::Subtract => 9,
            Binary::Multiply | Binary::Divide | Binary::Remainder => 10,
        }
    }

    /// Whether it works in the unsigned type, by those of its operands.
    pub fn common_type(self, left: bool, right: bool) -> bool
        ensures { result ≡ types.common_type self left right }
    {
        left || (right && self.strength() != 8)
    }

    /// Whether what it gives is unsigned, by the types of its operands.
    pub fn type_of(self, left: bool, right: bool) -> bool
        ensures { result ≡ types.binary_type self left right }
    {
        !self.is_logical() && self.common_type(left, right)
    }

    /// Whether it gives a truth value.
    fn is_logical(self) -> bool
        ensures { result ≡ types.is_logical self }
    {
        matches!(self.strength(), 1 | 2 | 6 | 7)
    }
}
