// Sweeps over lent bytes, read as elements of the byte field: one plain loop each.
#![tactic(auto)]

ghost use Rattle.std.specs.Prelude.{◌≡◌, length, get_or};
ghost use Rattle.gf2.specs.Bits.{tab};
ghost use Rattle.gf2.specs.Residue.{inv};
ghost use Rattle.sweeps.specs.Products.{answer, products};

use answers::Refusal;

// Each byte of `dst` times the byte of `src` at its place. Where the lengths differ, `dst` stays as it was.
pub fn mul_slice(dst: &mut [u8], src: &[u8]) -> Result<(), Refusal>
    ensures answer { result ≡ answer dst.old src.now }
    ensures bytes { dst.new ≡ products dst.old src.now }
{
    if dst.len() != src.len() {
        return Err(Refusal::LengthsDiffer);
    }
    // Kept: `src[i]` and no `zip`: tried, and of the elements nothing is known after a `zip` on `iter_mut`.
    for (i, x) in dst.iter_mut().enumerate() {
        *x = rijndael::mul_bytes(*x, src[i]);
    }
    Ok(())
}

// Each byte's inverse, with zero left alone.
pub fn invert_slice(bytes: &mut [u8])
    ensures { bytes.new ≡ tab (length bytes.old) (λ k. inv 8 0x1b (get_or bytes.old k 0)) }
{
    for x in bytes.iter_mut() {
        *x = rijndael::invert_byte(*x);
    }
}
