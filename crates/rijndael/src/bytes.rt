// Products and inverses of bytes, modulo x^8 + x^4 + x^3 + x + 1. Nothing here indexes a table by an operand.
ghost use Rattle.std.specs.Prelude.{◌≡◌, ◌^◌, ◌<◌};
ghost use Rattle.gf2.specs.Poly.{cmul};
ghost use Rattle.gf2.specs.Residue.{mul, inv};

// The carryless product by the modulus below its leading term: the four set bits of 0x1b are the four shifts.
// Kept: beside `folded` of `reduce`, which is modulo 2^64; of 16 bits nothing may fall out.
fn fold_tail(v: u16) -> u16
    requires { v < 2 ^ 12 }
    ensures { result ≡ cmul v 0x1b }
{
    (v << 4) ^ (v << 3) ^ (v << 1) ^ v
}

// The carryless product of two bytes, of degree at most fourteen.
fn carryless(a: u8, b: u8) -> u16
    ensures { result ≡ cmul a b }
{
    let wide = u16::from(a);
    let mut acc = 0u16;
    for i in 0..8u32 {
        // All ones when bit i of the second operand is set, all zeros otherwise.
        let selected = 0u16.wrapping_sub(u16::from((b >> i) & 1));
        acc ^= (wide << i) & selected;
    }
    acc
}

// The product of two elements, as bytes. x^8 is a tail of degree 4, so what stands above folds down by that tail, to
// degree 6 + 4; three bits are again above the top, and fold down to degree 2 + 4. So two folds are exact.
pub fn mul_bytes(a: u8, b: u8) -> u8
    ensures { result ≡ mul 8 0x1b a b }
{
    let product = carryless(a, b);
    let folded = fold_tail(product >> 8);
    ((product ^ folded ^ fold_tail(folded >> 8)) % 256) as u8
}

// The inverse of an element, with zero left alone: the power 254, by an addition chain on the exponent.
pub fn invert_byte(a: u8) -> u8
    ensures { result ≡ inv 8 0x1b a }
{
    let x2 = mul_bytes(a, a);
    let x3 = mul_bytes(x2, a);
    let x6 = mul_bytes(x3, x3);
    let x12 = mul_bytes(x6, x6);
    let x15 = mul_bytes(x12, x3);
    let x30 = mul_bytes(x15, x15);
    let x60 = mul_bytes(x30, x30);
    let x120 = mul_bytes(x60, x60);
    let x240 = mul_bytes(x120, x120);
    let x252 = mul_bytes(x240, x12);
    mul_bytes(x252, x2)
}
