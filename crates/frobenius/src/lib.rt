// The Frobenius maps of the byte field, and linearized polynomials: sums of c_j times v^(2^j). Squaring keeps XOR, so
// each of these is a byte map, and has a quadword, eight images and eight coefficients.
#![tactic(auto)]

ghost use Rattle.std.specs.Prelude.{◌≡◌, ◌<◌, get_or};
ghost use Rattle.gf2.specs.Bits.{tab};
ghost use Rattle.gf2.specs.Residue.{frob};
ghost use Rattle.spellings.specs.Lists.{times, dual, dual8};
ghost use Rattle.spellings.specs.Kinds.{Kind, meaning, find, turn};
ghost use Rattle.rijndael.specs.Element.{element};
ghost use Rattle.frobenius.specs.Elements.{bytes, elements};

mod converting;

use matrix::ByteMatrix;
use rijndael::Rijndael8b;
use std::array;

// Entry k is the map that squares k times, as a quadword: tools/frobenius.py prints them, and the rule is proved of them.
const FROBENIUS: [u64; 8] = [
    0x0102_0408_1020_4080,
    0x51d0_22f0_9460_28c0,
    0xed7c_b01c_7648_90e8,
    0x0b0e_3446_2ed8_5478,
    0x7102_d6da_628c_9e2c,
    0x8dd0_8e5c_9812_56b2,
    0x437c_c26e_a444_4ee4,
    0xa90e_384a_820a_2aaa,
];

// The dual basis of 1, x, .., x^7: the trace of entry b times x^k is 1 where b is k, and else 0. tools/dual.py finds it.
const DUAL: [u8; 8] = [0x29, 0xb0, 0x58, 0x05, 0xa6, 0x53, 0xa4, 0x52];

// The map that squares `power_log` times: eight squarings leave every byte alone, so the remainder by 8 decides.
pub fn frobenius_map(power_log: usize) -> ByteMatrix
    ensures { result.0 ≡ find Kind.Quadword (frob 8 0x1b power_log) }
{
    ByteMatrix::from_quadword(FROBENIUS[power_log % 8])
}

// The element squared k times, for every k below 8.
pub fn frobenius_orbit(x: Rijndael8b) -> [Rijndael8b; 8]
    ensures { result ≡ tab 8 (λ k. element (frob 8 0x1b k x.0)) }
{
    array::from_fn(|k| Rijndael8b::from_byte(frobenius_map(k).apply(x.to_byte())))
}

// Coefficient j of the map with these images: the sum of image b times the dual basis' entry b to the power 2^j.
fn coefficient(images: [u8; 8], j: usize) -> u8
    ensures { result ≡ times 8 0x1b (λ b. get_or images b 0) (dual 8 0x1b dual8) j }
{
    let map = frobenius_map(j);
    let pairs = images.iter().zip(&DUAL);
    pairs.fold(
        0,
        |sum, (image, entry)| sum ^ rijndael::mul_bytes(*image, map.apply(*entry)),
    )
}

// The byte map that sends v to the sum over j of entry j times v^(2^j).
#[derive(Clone, Copy, Debug, PartialEq, Eq)]
pub struct LinearizedPoly8b([Rijndael8b; 8]);

impl LinearizedPoly8b {
    // The map with these coefficients, in order of increasing squaring power.
    pub fn new(coefficients: [Rijndael8b; 8]) -> Self
        ensures { result.0 ≡ coefficients }
    {
        Self(coefficients)
    }

    // The coefficients, in order of increasing squaring power.
    pub fn coefficients(self) -> [Rijndael8b; 8]
        ensures { result ≡ self.0 }
    {
        self.0
    }

    // The value at one point, summed term by term over the point's orbit.
    pub fn eval(self, x: Rijndael8b) -> Rijndael8b
        ensures { result.0 ≡ meaning Kind.Coefficients (bytes self.0) x.0 }
    {
        let orbit = frobenius_orbit(x);
        let pairs = self.0.iter().zip(&orbit);
        pairs.fold(
            Rijndael8b::ZERO,
            |sum, (coefficient, power)| sum + *coefficient * *power,
        )
    }

    // Where the map sends the eight single-bit bytes, lowest bit first.
    // Kept: `to_matrix` is the Rust's name, and eight bytes are images or coefficients: here and below a From would hide which.
    pub fn to_images(self) -> [u8; 8]
        ensures { result ≡ turn Kind.Coefficients Kind.Images (bytes self.0) }
    {
        array::from_fn(|b| self.eval(Rijndael8b::from_byte(1u8 << b)).to_byte())
    }

    // The same map as a quadword: a byte map is fixed by where it sends the single-bit bytes.
    pub fn to_matrix(self) -> ByteMatrix
        ensures { result.0 ≡ turn Kind.Coefficients Kind.Quadword (bytes self.0) }
    {
        let images = self.to_images();
        ByteMatrix::from_images(images)
    }

    // The map that sends the eight single-bit bytes, lowest bit first, to these bytes.
    pub fn from_images(images: [u8; 8]) -> Self
        ensures { result.0 ≡ elements (turn Kind.Images Kind.Coefficients images) }
    {
        Self(array::from_fn(|j| Rijndael8b::from_byte(coefficient(images, j))))
    }

    // The way back from a quadword.
    pub fn from_matrix(map: ByteMatrix) -> Self
        ensures { result.0 ≡ elements (turn Kind.Quadword Kind.Coefficients map.0) }
    {
        let images = map.images();
        Self::from_images(images)
    }
}
