//! What a terminal is shown of bytes that it would take as orders.
ghost use Rattle.std.specs.Prelude.{◌≤◌, length};

use inc_answers::missing_notes::hex_digit;

/// The most bytes that are looked at for one write.
const MOST: usize = 4_096;

/// How much of a character of UTF-8 has been written.
#[derive(Clone, Copy)]
pub(crate) struct Character {
    /// Its first byte.
    first: u8,
    /// How many of its bytes are still to come.
    left: u8,
}

impl Character {
    /// None has begun.
    pub fn none() -> Character {
        Character { first: 0, left: 0 }
    }

    /// How many bytes at the front of a piece a terminal may get as they are, of the first of them.
    pub fn shown_len(self, piece: &[u8]) -> usize
        ensures { result ≤ length piece.now }
    {
        let mut character = self;
        for place in 0..piece.len() {
            if place == MOST || !character.is_shown_with(piece[place]) {
                return place;
            }
            character = character.with(piece[place]);
        }
        piece.len()
    }

    /// After these bytes, too.
    pub fn with_all(self, bytes: &[u8]) -> Character {
        let mut character = self;
        for byte in bytes {
            character = character.with(*byte);
        }
        character
    }

    /// Whether a terminal may get a byte next: one that is printed, a line feed or a tab. The control characters beyond ASCII are U+0080 to
    /// U+009F, which begin with C2, and to other terminals these bytes by themselves.
    fn is_shown_with(self, byte: u8) -> bool {
        match byte {
            b'\n' | b'\t' => true,
            0..=31 | 127 => false,
            128..=159 => self.left > 0 && self.first != 0xc2,
            _ => true,
        }
    }

    /// After this byte, too.
    fn with(self, byte: u8) -> Character {
        match byte {
            0..=127 => Character::none(),
            128..=191 => Character {
                first: self.first,
                left: self.left.saturating_sub(1),
            },
            192..=223 => Character {
                first: byte,
                left: 1,
            },
            224..=239 => Character {
                first: byte,
                left: 2,
            },
            _ => Character {
                first: byte,
                left: 3,
            },
        }
    }
}

/// What is shown in place of a byte: `\x` and its digits in base 16.
pub(crate) fn escaped(byte: u8) -> [u8; 4] {
    [b'\\', b'x', hex_digit(byte / 16), hex_digit(byte % 16)]
}
