// The field of 64-bit words: polynomials over two elements modulo x^64 + x^4 + x^3 + x + 1, bit i the coefficient of x^i.
// No routine reads a table.
#![tactic(auto)]

ghost use Rattle.std.specs.Prelude.{◌≡◌};
ghost use Rattle.gf2.specs.Poly.{◌⊕◌};
ghost use Rattle.gf2.specs.Residue.{mul, sq, frob, inv, root};
ghost use Rattle.answers.specs.Quotient.{inverse_of, quotient_of};
ghost use Rattle.gf64.specs.Answers.{dot_of};

use answers::Refusal;
use words::Limbs;

// The square root of x.
const ROOT_X: u64 = 0xffff_ffff_0000_000a;

// The sum, and the difference.
pub fn add_64(a: u64, b: u64) -> u64
    ensures { result ≡ a ⊕ b }
{
    a ^ b
}

// The product.
pub fn poly_mul_64(a: u64, b: u64) -> u64
    ensures { result ≡ mul 64 0x1b a b }
{
    reduce::reduce_64(clmul::clmul_64x64(a, b))
}

// The square: over two elements it sets the coefficients two apart.
pub fn poly_square_64(a: u64) -> u64
    ensures { result ≡ sq 64 0x1b a }
{
    reduce::reduce_64(words::spread_bits_64(a))
}

// The square root, of which every element has exactly one. The coefficients of even and of odd exponent give it in one
// product: the square of `even + ROOT_X odd` is `even^2 + x odd^2`.
pub fn poly_sqrt_64(a: u64) -> u64
    ensures { result ≡ root 64 0x1b a }
{
    let even = words::compact_even(a);
    let odd = words::compact_even(a >> 1);
    even ^ poly_mul_64(ROOT_X, odd)
}

// `count` squarings.
// Kept: beside `exp_power_of_2` of `rijndael`; one loop for a word and an element needs a trait of squaring for its three lines.
fn square_times(x: u64, count: usize) -> u64
    ensures { result ≡ frob 64 0x1b count x }
{
    let mut y = x;
    for _ in 0..count {
        y = poly_square_64(y);
    }
    y
}

// The inverse, and 0 for 0: the power 2^64 - 2. With b_k for x^(2^k - 1), b_(i + j) is b_i, squared j times, times b_j;
// the chain 1, 2, 3, 6, 12, 24, 48, 60, 63 takes eight products, and one more squaring turns 2^63 - 1 into 2^64 - 2.
pub fn poly_inverse_64(x: u64) -> u64
    ensures { result ≡ inv 64 0x1b x }
{
    let b2 = poly_mul_64(poly_square_64(x), x);
    let b3 = poly_mul_64(poly_square_64(b2), x);
    let b6 = poly_mul_64(square_times(b3, 3), b3);
    let b12 = poly_mul_64(square_times(b6, 6), b6);
    let b24 = poly_mul_64(square_times(b12, 12), b12);
    let b48 = poly_mul_64(square_times(b24, 24), b24);
    let b60 = poly_mul_64(square_times(b48, 12), b12);
    let b63 = poly_mul_64(square_times(b60, 3), b3);
    poly_square_64(b63)
}

// The inverse, or refusal 1 for zero.
pub fn try_inverse_64(x: u64) -> Result<u64, Refusal>
    ensures { result ≡ inverse_of 64 0x1b x }
{
    if x == 0 {
        return Err(Refusal::NoInverse);
    }
    Ok(poly_inverse_64(x))
}

// The dividend times the divisor's inverse, or refusal 1 where the divisor has none.
// Kept: `let .. else` and no `?`, and beside `Rijndael8b::div`: docs/DECISIONS.md, "Forms by place".
pub fn div_64(a: u64, b: u64) -> Result<u64, Refusal>
    ensures { result ≡ quotient_of 64 0x1b a b }
{
    let Ok(inverse) = try_inverse_64(b) else {
        return Err(Refusal::NoInverse);
    };
    Ok(poly_mul_64(a, inverse))
}

// The sum of the products of two lists, entry by entry, or refusal 2. The products are summed as they are, in two limbs,
// and reduced once.
pub fn poly_dot_64(a: &[u64], b: &[u64]) -> Result<u64, Refusal>
    ensures { result ≡ dot_of a.now b.now }
{
    if a.len() != b.len() {
        return Err(Refusal::LengthsDiffer);
    }
    let mut sum = Limbs::default();
    for (x, y) in a.iter().zip(b) {
        let product = clmul::clmul_64x64(*x, *y);
        sum = sum ^ product;
    }
    Ok(reduce::reduce_64(sum))
}
