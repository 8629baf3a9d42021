// The byte field.
ghost use Rattle.std.specs.Prelude.{◌≡◌};
ghost use Rattle.gf2.specs.Poly.{◌⊕◌};
ghost use Rattle.gf2.specs.Residue.{mul, sq, frob, inv, root};
ghost use Rattle.spellings.specs.Kinds.{Kind, find};
ghost use Rattle.answers.specs.Answer.{number, value_or, mapped};
ghost use Rattle.answers.specs.Quotient.{inverse_of, quotient_of};
ghost use Rattle.answers.specs.Lent.{read_of, room_for, written};
ghost use Rattle.rijndael.specs.Node.{node_of};
ghost use Rattle.towers.specs.Basis.{bmul, out as tower_image};

use crate::put::put;
use rijndael::Rijndael8b;

// The sum.
#[unsafe(no_mangle)]
pub extern "C" fn togasipe_rijndael_add(a: u8, b: u8) -> u8
    ensures { result ≡ a ⊕ b }
{
    (Rijndael8b::from_byte(a) + Rijndael8b::from_byte(b)).to_byte()
}

// The difference, which is the sum.
#[unsafe(no_mangle)]
pub extern "C" fn togasipe_rijndael_sub(a: u8, b: u8) -> u8
    ensures { result ≡ a ⊕ b }
{
    (Rijndael8b::from_byte(a) - Rijndael8b::from_byte(b)).to_byte()
}

// The product.
#[unsafe(no_mangle)]
pub extern "C" fn togasipe_rijndael_mul(a: u8, b: u8) -> u8
    ensures { result ≡ mul 8 0x1b a b }
{
    (Rijndael8b::from_byte(a) * Rijndael8b::from_byte(b)).to_byte()
}

// The square.
#[unsafe(no_mangle)]
pub extern "C" fn togasipe_rijndael_square(a: u8) -> u8
    ensures { result ≡ sq 8 0x1b a }
{
    Rijndael8b::from_byte(a).square().to_byte()
}

// Squared `power_log` times.
#[unsafe(no_mangle)]
pub extern "C" fn togasipe_rijndael_exp_power_of_2(a: u8, power_log: usize) -> u8
    ensures { result ≡ frob 8 0x1b power_log a }
{
    Rijndael8b::from_byte(a).exp_power_of_2(power_log).to_byte()
}

// The square root.
#[unsafe(no_mangle)]
pub extern "C" fn togasipe_rijndael_sqrt(a: u8) -> u8
    ensures { result ≡ root 8 0x1b a }
{
    Rijndael8b::from_byte(a).sqrt().to_byte()
}

// The inverse, and zero for zero.
#[unsafe(no_mangle)]
pub extern "C" fn togasipe_rijndael_invert_or_zero(a: u8) -> u8
    ensures { result ≡ inv 8 0x1b a }
{
    Rijndael8b::from_byte(a).invert_or_zero().to_byte()
}

// The inverse; refusal 1 for zero.
#[unsafe(no_mangle)]
pub extern "C" fn togasipe_rijndael_try_inverse(a: u8, out: &mut u8) -> u32
    ensures answer { result ≡ number (inverse_of 8 0x1b a) }
    ensures value { out.new ≡ value_or (inverse_of 8 0x1b a) out.old }
{
    put(
        Rijndael8b::from_byte(a)
            .try_inverse()
            .map(Rijndael8b::to_byte),
        out,
    )
}

// a divided by b; refusal 1 where b is zero.
#[unsafe(no_mangle)]
pub extern "C" fn togasipe_rijndael_div(a: u8, b: u8, out: &mut u8) -> u32
    ensures answer { result ≡ number (quotient_of 8 0x1b a b) }
    ensures value { out.new ≡ value_or (quotient_of 8 0x1b a b) out.old }
{
    put(
        Rijndael8b::from_byte(a)
            .div(Rijndael8b::from_byte(b))
            .map(Rijndael8b::to_byte),
        out,
    )
}

// Node i, the byte i; refusal 3 from 256 up.
#[unsafe(no_mangle)]
pub extern "C" fn togasipe_rijndael_interpolation_node(i: usize, out: &mut u8) -> u32
    ensures answer { result ≡ number (node_of i) }
    ensures value { out.new ≡ value_or (mapped (λ e. e.0) (node_of i)) out.old }
{
    put(
        Rijndael8b::interpolation_node(i).map(Rijndael8b::to_byte),
        out,
    )
}

// The quadword of the map that multiplies by a.
#[unsafe(no_mangle)]
pub extern "C" fn togasipe_rijndael_scaling_matrix(a: u8) -> u64
    ensures { result ≡ find Kind.Quadword (mul 8 0x1b a) }
{
    Rijndael8b::from_byte(a).scaling_matrix().to_quadword()
}

// The product with the image of the tower's topmost generator.
#[unsafe(no_mangle)]
pub extern "C" fn togasipe_rijndael_mul_alpha(a: u8) -> u8
    ensures { result ≡ bmul a (tower_image 0x10) }
{
    tower::mul_alpha(Rijndael8b::from_byte(a)).to_byte()
}

// The element at the start of the bytes; refusal 4 where there is none.
#[unsafe(no_mangle)]
pub extern "C" fn togasipe_rijndael_read(s: &[u8], out: &mut u8) -> u32
    ensures answer { result ≡ number (read_of 1 s.now) }
    ensures value { out.new ≡ value_or (read_of 1 s.now) out.old }
{
    put(Rijndael8b::read(s).map(Rijndael8b::to_byte), out)
}

// Writes the element over the first byte; refusal 4 where there is none.
#[unsafe(no_mangle)]
pub extern "C" fn togasipe_rijndael_write(a: u8, d: &mut [u8]) -> u32
    ensures answer { result ≡ number (room_for 1 d.old) }
    ensures bytes { d.new ≡ written 1 d.old a }
{
    answers::number(Rijndael8b::from_byte(a).write(d))
}
