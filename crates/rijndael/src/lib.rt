// The byte field: polynomials over GF(2) modulo x^8 + x^4 + x^3 + x + 1.
#![tactic(auto)]

mod bytes;

ghost use Rattle.std.specs.Prelude.{◌≡◌, [], ◌∷◌};
ghost use Rattle.gf2.specs.Poly.{◌⊕◌};
ghost use Rattle.gf2.specs.Residue.{mul as product, sq, frob, inv, root};
ghost use Rattle.spellings.specs.Kinds.{Kind, find};
ghost use Rattle.answers.specs.Answer.{mapped};
ghost use Rattle.answers.specs.Quotient.{inverse_of, quotient_of};
ghost use Rattle.answers.specs.Lent.{read_of, room_for, written};
ghost use Rattle.rijndael.specs.Element.{element};
ghost use Rattle.rijndael.specs.Node.{node_of};

use answers::Refusal;
pub use bytes::{invert_byte, mul_bytes};
use std::array;
use std::ops::{Add, Mul, Sub};

// An element of the field. Bit i is the coefficient of x^i, and every byte is an element.
#[derive(Clone, Copy, Debug, PartialEq, Eq)]
pub struct Rijndael8b(u8);

impl Rijndael8b {
    pub const ZERO: Self = Self(0);

    pub const ONE: Self = Self(1);

    // The image of the tower byte 0x13.
    pub const GENERATOR: Self = Self(0x88);

    // Kept: bits, as `f64::from_bits`: the number 2 is 1 + 1, that is 0, in this field, and `From<u8>` would say so.
    pub fn from_byte(byte: u8) -> Self
        ensures { result.0 ≡ byte }
    {
        Self(byte)
    }

    pub fn to_byte(self) -> u8
        ensures { result ≡ self.0 }
    {
        self.0
    }

    pub fn square(self) -> Self
        ensures { result.0 ≡ sq 8 0x1b self.0 }
    {
        self * self
    }

    // Squared `power_log` times. Eight squarings change nothing, so only the remainder by 8 is done.
    pub fn exp_power_of_2(self, power_log: usize) -> Self
        ensures { result.0 ≡ frob 8 0x1b power_log self.0 }
    {
        let mut x = self;
        for _turn in 0..power_log % 8 {
            x = x.square();
        }
        x
    }

    // The square root: seven squarings, since the eighth gives the element back.
    pub fn sqrt(self) -> Self
        ensures { result.0 ≡ root 8 0x1b self.0 }
    {
        self.exp_power_of_2(7)
    }

    // The inverse, with zero sent to zero.
    pub fn invert_or_zero(self) -> Self
        ensures { result.0 ≡ inv 8 0x1b self.0 }
    {
        Self(invert_byte(self.0))
    }

    // The inverse, or refusal 1 for zero. The chain runs whatever the operand is.
    pub fn try_inverse(self) -> Result<Self, Refusal>
        ensures { result ≡ mapped element (inverse_of 8 0x1b self.0) }
    {
        let inverse = self.invert_or_zero();
        if self.0 == 0 {
            Err(Refusal::NoInverse)
        } else {
            Ok(inverse)
        }
    }

    // The dividend times the inverse of the divisor, or refusal 1 where that has none.
    // Kept: no `Div`, whose answer is a quotient; `let .. else` and no `?`, and beside `gf64::div_64`: docs/DECISIONS.md, "Forms by place".
    pub fn div(self, divisor: Self) -> Result<Self, Refusal>
        ensures { result ≡ mapped element (quotient_of 8 0x1b self.0 divisor.0) }
    {
        let Ok(inverse) = divisor.try_inverse() else {
            return Err(Refusal::NoInverse);
        };
        Ok(self * inverse)
    }

    // The enumeration by bit pattern: node i is the byte i, and refusal 3 from 256 up.
    pub fn interpolation_node(i: usize) -> Result<Self, Refusal>
        ensures { result ≡ node_of i }
    {
        let Ok(byte) = u8::try_from(i) else {
            return Err(Refusal::BadIndex);
        };
        Ok(Self(byte))
    }

    // The first byte, or refusal 4 where there is none. Later bytes are ignored.
    pub fn read(s: &[u8]) -> Result<Self, Refusal>
        ensures { result ≡ mapped element (read_of 1 s.now) }
    {
        match s {
            [first, ..] => Ok(Self(*first)),
            [] => Err(Refusal::Short),
        }
    }

    // Writes the first byte and leaves the others as they were; refusal 4 where there is none.
    pub fn write(self, d: &mut [u8]) -> Result<(), Refusal>
        ensures answer { result ≡ room_for 1 d.old }
        ensures bytes { d.new ≡ written 1 d.old self.0 }
    {
        let [first, ..] = d else {
            return Err(Refusal::Short);
        };
        *first = self.0;
        Ok(())
    }

    // Multiplication by this element as a byte matrix: the images of the eight single-bit bytes.
    pub fn scaling_matrix(self) -> matrix::ByteMatrix
        ensures { result.0 ≡ find Kind.Quadword (product 8 0x1b self.0) }
    {
        matrix::ByteMatrix::from_images(array::from_fn(|b| mul_bytes(self.0, 1 << b)))
    }
}

impl Add for Rijndael8b {
    type Output = Self;

    ghost add_gives = { λ a b c. c.0 ≡ a.0 ⊕ b.0 };

    fn add(self, rhs: Self) -> Self {
        Self(self.0 ^ rhs.0)
    }
}

// Over two elements the difference is the sum.
impl Sub for Rijndael8b {
    type Output = Self;

    ghost sub_gives = { λ a b c. c.0 ≡ a.0 ⊕ b.0 };

    fn sub(self, rhs: Self) -> Self {
        self + rhs
    }
}

impl Mul for Rijndael8b {
    type Output = Self;

    ghost mul_gives = { λ a b c. c.0 ≡ product 8 0x1b a.0 b.0 };

    fn mul(self, rhs: Self) -> Self {
        Self(mul_bytes(self.0, rhs.0))
    }
}

// What the three constants are.
fn constants() -> [Rijndael8b; 3]
    ensures { result ≡ element 0 ∷ element 1 ∷ element 0x88 ∷ [] }
{
    [Rijndael8b::ZERO, Rijndael8b::ONE, Rijndael8b::GENERATOR]
}
