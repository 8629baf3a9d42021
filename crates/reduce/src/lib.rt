// The remainders of carryless products: what stands above the top coefficient, times the modulus's tail, is added to
// what stands below, and what that spills over the top is folded the same way once more.
#![tactic(auto)]

ghost use Rattle.std.specs.Prelude.{◌≡◌, ◌+◌, ◌*◌, ◌/◌, ◌%◌, ◌^◌, ◌<◌};
ghost use Rattle.gf2.specs.Poly.{cmul};
ghost use Rattle.gf2.specs.Residue.{rem};
ghost use Rattle.reduce.specs.Tail.{tail};
ghost use Rattle.words.specs.Limbs.{value, limbs};

use words::Limbs;

// A word times the tail x^I + x^J + x^K + 1, as far as it stays in the word.
// Kept: three const parameters and no trait of constants, whose two impls would be longer than the two lines that give them.
fn folded<const I: u32, const J: u32, const K: u32>(h: u64) -> u64
    requires { (I < 64) × (J < 64) × (K < 64) }
    ensures { result ≡ cmul h (tail I J K) % 2 ^ 64 }
{
    (h << I) ^ (h << J) ^ (h << K) ^ h
}

// What the word times the tail pushes out at the top.
fn spilled<const I: u32, const J: u32, const K: u32>(h: u64) -> u64
    requires above_0 { (0 < I) × (0 < J) × (0 < K) }
    requires below_64 { (I < 64) × (J < 64) × (K < 64) }
    ensures { result ≡ cmul h (tail I J K) / 2 ^ 64 }
{
    (h >> (64 - I)) ^ (h >> (64 - J)) ^ (h >> (64 - K))
}

// Reduces a product of two words modulo x^64 + x^4 + x^3 + x + 1. Degree 4 spills 4 bits back over the top.
pub fn reduce_64(product: Limbs) -> u64
    ensures { result ≡ rem 64 0x1b (value product) }
{
    let spill = spilled::<4, 3, 1>(product.high);
    product.low ^ folded::<4, 3, 1>(product.high) ^ folded::<4, 3, 1>(spill)
}

// Reduces a 256-bit product, low half first, modulo x^128 + x^7 + x^2 + x + 1. The same two folds, with a tail of degree
// 7, a limb at a time: what the low limb pushes out at its top comes in at the bottom of the high one, and the 7 bits that
// the high limb pushes out are the spill.
pub fn reduce_128(low: Limbs, high: Limbs) -> Limbs
    ensures { result ≡ limbs (rem 128 0x87 (value high * 2 ^ 128 + value low)) }
{
    let carried = spilled::<7, 2, 1>(high.low);
    let spill = spilled::<7, 2, 1>(high.high);
    Limbs {
        low: low.low ^ folded::<7, 2, 1>(high.low) ^ folded::<7, 2, 1>(spill),
        high: low.high ^ folded::<7, 2, 1>(high.high) ^ carried,
    }
}
