// Total functions on machine words.
#![tactic(auto)]

ghost use Rattle.std.specs.Prelude.{◌≡◌, ◌*◌, ◌%◌, ◌^◌};
ghost use Rattle.gf2.specs.Poly.{◌⊕◌, spread};
ghost use Rattle.words.specs.Words.{rev, compact};
ghost use Rattle.words.specs.Limbs.{value, limbs};

use std::ops::BitXor;

// Two 64-bit limbs, the low one first: a product of two words, or an element of 128 bits.
#[derive(Clone, Copy, Debug, Default, PartialEq, Eq)]
pub struct Limbs {
    pub low: u64,
    pub high: u64,
}

// The sum over two elements: the XOR of the two numbers, limb by limb.
impl BitXor for Limbs {
    type Output = Self;

    ghost bitxor_gives = { λ a b c. c ≡ limbs (value a ⊕ value b) };

    fn bitxor(self, rhs: Self) -> Self {
        Self {
            low: self.low ^ rhs.low,
            high: self.high ^ rhs.high,
        }
    }
}

// a * b modulo 2^64.
// Kept: a helper of our own, as the two reversals are: docs/DECISIONS.md, "Forms by place".
pub fn wrapping_mul_64(a: u64, b: u64) -> u64
    ensures { result ≡ (a * b) % 2 ^ 64 }
{
    a.wrapping_mul(b)
}

// The bits of a byte, and of a word, in the other order.
pub fn reverse_bits_8(x: u8) -> u8
    ensures { result ≡ rev 8 x }
{
    x.reverse_bits()
}

// The halves are joined by `^`, which keeps sums over GF(2); LLVM sees that they have no bit in common.
// Kept: std's method compiles to a loop at 64 bits, some six times as slow, and each high product takes three reversals.
pub fn reverse_bits_64(x: u64) -> u64
    ensures { result ≡ rev 64 x }
{
    let a = ((x >> 32) & 0x0000_0000_ffff_ffff) ^ ((x & 0x0000_0000_ffff_ffff) << 32);
    let b = ((a >> 16) & 0x0000_ffff_0000_ffff) ^ ((a & 0x0000_ffff_0000_ffff) << 16);
    let c = ((b >> 8) & 0x00ff_00ff_00ff_00ff) ^ ((b & 0x00ff_00ff_00ff_00ff) << 8);
    let d = ((c >> 4) & 0x0f0f_0f0f_0f0f_0f0f) ^ ((c & 0x0f0f_0f0f_0f0f_0f0f) << 4);
    let e = ((d >> 2) & 0x3333_3333_3333_3333) ^ ((d & 0x3333_3333_3333_3333) << 2);
    ((e >> 1) & 0x5555_5555_5555_5555) ^ ((e & 0x5555_5555_5555_5555) << 1)
}

// Bit i of 32 bits at bit 2i of a word. Each round doubles the gap between neighbours; the parts that meet under a mask
// have no bit in common, so that `^` joins them.
fn spread_bits_32(v: u32) -> u64
    ensures { result ≡ spread v }
{
    let a = v as u64;
    let b = (a ^ (a << 16)) & 0x0000_ffff_0000_ffff;
    let c = (b ^ (b << 8)) & 0x00ff_00ff_00ff_00ff;
    let d = (c ^ (c << 4)) & 0x0f0f_0f0f_0f0f_0f0f;
    let e = (d ^ (d << 2)) & 0x3333_3333_3333_3333;
    (e ^ (e << 1)) & 0x5555_5555_5555_5555
}

// Bit i of a word at bit 2i of two limbs, by halves of 32 bits: the square of a polynomial over GF(2).
pub fn spread_bits_64(v: u64) -> Limbs
    ensures { result ≡ limbs (spread v) }
{
    let low = spread_bits_32((v & 0xffff_ffff) as u32);
    let high = spread_bits_32((v >> 32) as u32);
    Limbs { low, high }
}

// Bit 2i of a word at bit i, for i from 0 to 31. Each round closes the gaps of the one before.
pub fn compact_even(x: u64) -> u64
    ensures { result ≡ compact x }
{
    let a = x & 0x5555_5555_5555_5555;
    let b = (a ^ (a >> 1)) & 0x3333_3333_3333_3333;
    let c = (b ^ (b >> 2)) & 0x0f0f_0f0f_0f0f_0f0f;
    let d = (c ^ (c >> 4)) & 0x00ff_00ff_00ff_00ff;
    let e = (d ^ (d >> 8)) & 0x0000_ffff_0000_ffff;
    (e ^ (e >> 16)) & 0x0000_0000_ffff_ffff
}
