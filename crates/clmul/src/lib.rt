// Carryless products of 64-bit words.
#![tactic(auto)]

ghost use Rattle.std.specs.Prelude.{◌≡◌, ◌/◌, ◌%◌, ◌^◌};
ghost use Rattle.gf2.specs.Poly.{cmul};
ghost use Rattle.words.specs.Limbs.{limbs};

// Every fourth bit, starting at bit 0, 1, 2, 3.
const NIBBLE_0: u64 = 0x1111_1111_1111_1111;

const NIBBLE_1: u64 = NIBBLE_0 << 1;

const NIBBLE_2: u64 = NIBBLE_0 << 2;

const NIBBLE_3: u64 = NIBBLE_0 << 3;

// The low 64 bits of the carryless product of two words: bit i stands for x^i over GF(2). Class r of a word is its bits
// at places r modulo 4, and class r by class s, as integers, lands in class r + s. There place 4k + r + s counts at most
// k + 1 pairs: below 16 for k < 15, so that the count fits the place and the three above it and its lowest bit is the
// coefficient; for k = 15 what does not fit falls out of the word.
// Kept: the classes and the sums one by one: each of the four pairs other classes, and a table of pairs would be longer.
pub fn bmul64(x: u64, y: u64) -> u64
    ensures { result ≡ cmul x y % 2 ^ 64 }
{
    let x0 = x & NIBBLE_0;
    let x1 = x & NIBBLE_1;
    let x2 = x & NIBBLE_2;
    let x3 = x & NIBBLE_3;
    let y0 = y & NIBBLE_0;
    let y1 = y & NIBBLE_1;
    let y2 = y & NIBBLE_2;
    let y3 = y & NIBBLE_3;
    let z0 = words::wrapping_mul_64(x0, y0)
        ^ words::wrapping_mul_64(x1, y3)
        ^ words::wrapping_mul_64(x2, y2)
        ^ words::wrapping_mul_64(x3, y1);
    let z1 = words::wrapping_mul_64(x0, y1)
        ^ words::wrapping_mul_64(x1, y0)
        ^ words::wrapping_mul_64(x2, y3)
        ^ words::wrapping_mul_64(x3, y2);
    let z2 = words::wrapping_mul_64(x0, y2)
        ^ words::wrapping_mul_64(x1, y1)
        ^ words::wrapping_mul_64(x2, y0)
        ^ words::wrapping_mul_64(x3, y3);
    let z3 = words::wrapping_mul_64(x0, y3)
        ^ words::wrapping_mul_64(x1, y2)
        ^ words::wrapping_mul_64(x2, y1)
        ^ words::wrapping_mul_64(x3, y0);
    (z0 & NIBBLE_0) ^ (z1 & NIBBLE_1) ^ (z2 & NIBBLE_2) ^ (z3 & NIBBLE_3)
}

// The high 64 bits of the carryless product. Reversed words have the reversed product, whose low half holds coefficients
// 126 down to 63; the shift drops coefficient 63, which belongs to the low half.
pub fn bmul64_high(a: u64, b: u64) -> u64
    ensures { result ≡ cmul a b / 2 ^ 64 }
{
    words::reverse_bits_64(bmul64(words::reverse_bits_64(a), words::reverse_bits_64(b))) >> 1
}

// The carryless product of two words, as two limbs.
pub fn clmul_64x64(a: u64, b: u64) -> words::Limbs
    ensures { result ≡ limbs (cmul a b) }
{
    let low = bmul64(a, b);
    let high = bmul64_high(a, b);
    words::Limbs { low, high }
}
