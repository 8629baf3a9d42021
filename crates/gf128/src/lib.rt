// Arithmetic modulo x^128 + x^7 + x^2 + x + 1. An element is two limbs, the low one first.
#![tactic(auto)]

ghost use Rattle.std.specs.Prelude.{◌≡◌, ◌/◌, ◌^◌};
ghost use Rattle.gf2.specs.Poly.{◌⊕◌, cmul};
ghost use Rattle.gf2.specs.Residue.{mul, sq};
ghost use Rattle.words.specs.Limbs.{value, limbs};
ghost use Rattle.gf128.specs.Answers.{element as element_of, answer};

use answers::Refusal;
use words::Limbs;

// The sum of two elements.
pub fn add_128(a: Limbs, b: Limbs) -> Limbs
    ensures { result ≡ limbs (value a ⊕ value b) }
{
    a ^ b
}

// A product before its reduction: the lowest 128 bits, and those above.
// Kept: `Limbs` has two words where this has two limbs: one type for both would put a parameter into every signature.
#[derive(Clone, Copy)]
struct Wide {
    low: Limbs,
    high: Limbs,
}

// The unreduced product, by Karatsuba over the halves: the product of the sums, less the two products of the halves, is
// the sum of the cross terms, and stands at x^64.
fn wide_mul_128(a: Limbs, b: Limbs) -> Wide
    ensures low { result.low ≡ limbs (cmul (value a) (value b)) }
    ensures high { result.high ≡ limbs (cmul (value a) (value b) / 2 ^ 128) }
{
    let l = clmul::clmul_64x64(a.low, b.low);
    let h = clmul::clmul_64x64(a.high, b.high);
    let m = clmul::clmul_64x64(a.low ^ a.high, b.low ^ b.high);
    let m = m ^ l ^ h;
    let low = Limbs {
        low: l.low,
        high: l.high ^ m.low,
    };
    let high = Limbs {
        low: h.low ^ m.high,
        high: h.high,
    };
    Wide { low, high }
}

// The product of two elements.
pub fn poly_mul_128(a: Limbs, b: Limbs) -> Limbs
    ensures { result ≡ limbs (mul 128 0x87 (value a) (value b)) }
{
    let product = wide_mul_128(a, b);
    reduce::reduce_128(product.low, product.high)
}

// The square of an element. The coefficients of a square stand two apart: each half spreads to 128 bits, with no cross
// terms.
pub fn poly_square_128(a: Limbs) -> Limbs
    ensures { result ≡ limbs (sq 128 0x87 (value a)) }
{
    let low = words::spread_bits_64(a.low);
    let high = words::spread_bits_64(a.high);
    reduce::reduce_128(low, high)
}

// Two limbs as an element.
fn element(limbs: &[u64; 2]) -> Limbs
    ensures { value result ≡ element_of limbs.now 0 }
{
    let [low, high] = *limbs;
    Limbs { low, high }
}

// The sum of the products of two lists of elements, each element two limbs of its list, the low one first; or refusal 2, or
// else 5. The products are summed up before the one reduction, which keeps sums.
// Kept: beside `gf64::poly_dot_64` one loop for both needs a trait with five laws (element, product, zero, sum, reduction).
pub fn poly_dot_128(a: &[u64], b: &[u64]) -> Result<Limbs, Refusal>
    ensures { result ≡ answer a.now b.now }
{
    if a.len() != b.len() {
        return Err(Refusal::LengthsDiffer);
    }
    if a.len() % 2 != 0 {
        return Err(Refusal::OddLimbs);
    }
    let (xs, _) = a.as_chunks::<2>();
    let (ys, _) = b.as_chunks::<2>();
    let mut low = Limbs::default();
    let mut high = Limbs::default();
    for (x, y) in xs.iter().zip(ys) {
        let product = wide_mul_128(element(x), element(y));
        low = low ^ product.low;
        high = high ^ product.high;
    }
    Ok(reduce::reduce_128(low, high))
}
