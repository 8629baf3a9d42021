// The tower byte: bytes over the generators X0, X1, X2, where each Xk squared is X(k-1) Xk + 1 and X(-1) is 1; and the
// change of basis to the byte field and back.
#![tactic(auto)]

ghost use Rattle.std.specs.Prelude.{◌≡◌, ◌^◌, ◌<◌};
ghost use Rattle.gf2.specs.Poly.{◌⊕◌};
ghost use Rattle.towers.specs.Level.{size, lo, hi, join};
ghost use Rattle.towers.specs.Mul.{talpha, tmul};
ghost use Rattle.towers.specs.Basis.{bmul, out_images, out, into_images, into};
ghost use Rattle.spellings.specs.Kinds.{Kind, turn};
ghost use Rattle.tower.specs.Split.{index, level};

use matrix::ByteMatrix;
use rijndael::Rijndael8b;
use std::ops::{Add, Mul};

// Where X0, X1 and X2 go in the byte field: each to the smallest nonzero byte that solves its relation over the byte
// before, X0's over 1. A search from 1 upwards found them.
const XI: [u8; 3] = [0xbc, 0x0c, 0x35];

// The map out of the tower, as a matrix whose images are those that `tower_images` builds.
const FROM_TOWER: u64 = 0xf9c0_f606_1af2_4882;

// The map back, as a matrix.
const INTO_TOWER: u64 = 0xe32c_24ee_d2dc_aeac;

// Where a value splits: at Xk, into two halves of 2^k bits, as x + y Xk. A single bit does not split.
#[derive(Clone, Copy)]
enum Split {
    X0,
    X1,
    X2,
}

impl Split {
    // The width of a half.
    fn width(self) -> u32
        ensures { result ≡ 2 ^ index self }
    {
        1 << (self as u32)
    }

    // Where a half splits in turn.
    fn below(self) -> Option<Self>
        ensures { level result ≡ index self }
    {
        match self {
            Self::X0 => None,
            Self::X1 => Some(Self::X0),
            Self::X2 => Some(Self::X1),
        }
    }

    // The halves of a value, and the value with given halves.
    fn low(self, a: u8) -> u8
        ensures { result ≡ lo (index self) a }
    {
        a & ((1 << self.width()) - 1)
    }

    fn high(self, a: u8) -> u8
        ensures { result ≡ hi (index self) a }
    {
        self.low(a >> self.width())
    }

    fn joined(self, x: u8, y: u8) -> u8
        requires { y < size (index self) }
        ensures { result ≡ join (index self) x y }
    {
        (y << self.width()) ^ x
    }
}

// The topmost generator times a, a value that splits there; a single bit is times 1.
fn tower_alpha(a: u8, top: Option<Split>) -> u8
    ensures { result ≡ talpha (level top) a }
{
    let Some(k) = top else {
        return a & 1;
    };
    let a1 = k.high(a);
    k.joined(a1, k.low(a) ^ tower_alpha(a1, k.below()))
}

// The product splits its factors at the topmost generator, down to single bits. Of the four products of halves the two
// mixed ones are needed as a sum only, which one product of sums gives.
fn tower_mul(a: u8, b: u8, top: Option<Split>) -> u8
    ensures { result ≡ tmul (level top) a b }
{
    let Some(k) = top else {
        return a & b & 1;
    };
    let a0 = k.low(a);
    let a1 = k.high(a);
    let b0 = k.low(b);
    let b1 = k.high(b);
    let half = k.below();
    let z0 = tower_mul(a0, b0, half);
    let z2 = tower_mul(a1, b1, half);
    let z1 = tower_mul(a0 ^ a1, b0 ^ b1, half) ^ z0 ^ z2;
    k.joined(z0 ^ z2, z1 ^ tower_alpha(z2, half))
}

// A byte of the tower. Bit j is the coefficient of the product of the generators that the bits of j name.
#[derive(Clone, Copy, Debug, PartialEq, Eq)]
pub struct BinaryField8(u8);

impl BinaryField8 {
    pub const ZERO: Self = Self(0);

    pub const ONE: Self = Self(1);

    // Every byte is an element.
    // Kept: bits, as `f64::from_bits`: the number 2 is 1 + 1, that is 0, in this field, and `From<u8>` would say so.
    pub fn from_repr(byte: u8) -> Self
        ensures { result.0 ≡ byte }
    {
        Self(byte)
    }

    pub fn to_repr(self) -> u8
        ensures { result ≡ self.0 }
    {
        self.0
    }
}

// Kept: beside the byte field's sum; what a macro or a trait for both would take is longer than this line.
impl Add for BinaryField8 {
    type Output = Self;

    ghost add_gives = { λ a b c. c.0 ≡ a.0 ⊕ b.0 };

    fn add(self, other: Self) -> Self {
        Self(self.0 ^ other.0)
    }
}

impl Mul for BinaryField8 {
    type Output = Self;

    ghost mul_gives = { λ a b c. c.0 ≡ tmul 3 a.0 b.0 };

    fn mul(self, other: Self) -> Self {
        Self(tower_mul(self.0, other.0, Some(Split::X2)))
    }
}

// The same field element as a byte of the byte field.
impl From<BinaryField8> for Rijndael8b {
    ghost from_gives = { λ x y. y.0 ≡ out x.0 };

    fn from(x: BinaryField8) -> Self {
        Self::from_byte(from_tower().apply(x.0))
    }
}

// The same field element as a byte of the tower.
impl From<Rijndael8b> for BinaryField8 {
    ghost from_gives = { λ x y. y.0 ≡ into x.0 };

    fn from(x: Rijndael8b) -> Self {
        Self(into_tower().apply(x.to_byte()))
    }
}

// What the two constants are.
fn zero() -> BinaryField8
    ensures { result.0 ≡ 0 }
{
    BinaryField8::ZERO
}

fn one() -> BinaryField8
    ensures { result.0 ≡ 1 }
{
    BinaryField8::ONE
}

// The two changes of basis undo one another, for every byte. Nothing calls these: they are there for their contracts.
// Kept: each says the theorem of its own two types, as in `matrix`.
fn to_rijndael_and_back(x: BinaryField8) -> BinaryField8
    ensures { result ≡ x }
{
    BinaryField8::from(Rijndael8b::from(x))
}

fn from_rijndael_and_back(x: Rijndael8b) -> Rijndael8b
    ensures { result ≡ x }
{
    Rijndael8b::from(BinaryField8::from(x))
}

// Where the eight bits of a tower byte go: entry j is the image of the product of the generators that the bits of j name.
// The lowest set bit of j names the generator split off, and the image of the rest is there already.
pub fn tower_images() -> [u8; 8]
    ensures { result ≡ out_images }
{
    let mut images = [1u8; 8];
    for j in 1usize..8 {
        let lowest = j.trailing_zeros() as usize;
        images[j] = rijndael::mul_bytes(XI[lowest], images[j & (j - 1)]);
    }
    images
}

// The map that `from_images` makes of `tower_images`, and the map back. A constant's value cannot be a call, and a matrix
// built at each use would cost more than its use, so both are written out.
fn from_tower() -> ByteMatrix
    ensures { result.0 ≡ turn Kind.Images Kind.Quadword out_images }
{
    ByteMatrix::from_quadword(FROM_TOWER)
}

fn into_tower() -> ByteMatrix
    ensures { result.0 ≡ turn Kind.Images Kind.Quadword into_images }
{
    ByteMatrix::from_quadword(INTO_TOWER)
}

// The image of X2 times x. In the tower that is a matter of shifts; here X2 is a byte like any other.
pub fn mul_alpha(x: Rijndael8b) -> Rijndael8b
    ensures { result.0 ≡ bmul x.0 (out 0x10) }
{
    Rijndael8b::from_byte(rijndael::mul_bytes(x.to_byte(), XI[2]))
}

// The byte field's generator: the image of tower byte 0x13.
pub fn generator() -> Rijndael8b
    ensures { result.0 ≡ out 0x13 }
{
    Rijndael8b::GENERATOR
}
