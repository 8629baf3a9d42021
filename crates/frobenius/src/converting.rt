// What the theorem of the three spellings says of the four conversions of polynomials, and that two ways lead to one answer, for
// every value of the types. Nothing calls these: they are there for their contracts.
// Kept: each says the theorem of its own two types, as in `matrix`.
ghost use Rattle.std.specs.Prelude.{◌≡◌};
ghost use Rattle.gf2.specs.Residue.{frob};
ghost use Rattle.spellings.specs.Kinds.{Kind, meaning};
ghost use Rattle.spellings.specs.Theorem.{Converts};
ghost use Rattle.frobenius.specs.Elements.{bytes};

use crate::LinearizedPoly8b;
use matrix::ByteMatrix;
use rijndael::Rijndael8b;

fn to_images_converts(p: LinearizedPoly8b) -> [u8; 8]
    ensures { Converts Kind.Coefficients Kind.Images (bytes p.0) result }
{
    p.to_images()
}

fn from_images_converts(images: [u8; 8]) -> LinearizedPoly8b
    ensures { Converts Kind.Images Kind.Coefficients images (bytes result.0) }
{
    LinearizedPoly8b::from_images(images)
}

fn to_matrix_converts(p: LinearizedPoly8b) -> ByteMatrix
    ensures { Converts Kind.Coefficients Kind.Quadword (bytes p.0) result.0 }
{
    p.to_matrix()
}

fn from_matrix_converts(map: ByteMatrix) -> LinearizedPoly8b
    ensures { Converts Kind.Quadword Kind.Coefficients map.0 (bytes result.0) }
{
    LinearizedPoly8b::from_matrix(map)
}

fn to_images_and_back(p: LinearizedPoly8b) -> LinearizedPoly8b
    ensures { result ≡ p }
{
    LinearizedPoly8b::from_images(p.to_images())
}

fn from_images_and_back(images: [u8; 8]) -> [u8; 8]
    ensures { result ≡ images }
{
    LinearizedPoly8b::from_images(images).to_images()
}

fn to_matrix_and_back(p: LinearizedPoly8b) -> LinearizedPoly8b
    ensures { result ≡ p }
{
    LinearizedPoly8b::from_matrix(p.to_matrix())
}

fn from_matrix_and_back(map: ByteMatrix) -> ByteMatrix
    ensures { result ≡ map }
{
    LinearizedPoly8b::from_matrix(map).to_matrix()
}

// The matrix of a polynomial, applied, answers what `eval` does.
fn matrix_applied(p: LinearizedPoly8b, x: Rijndael8b) -> u8
    ensures { result ≡ meaning Kind.Coefficients (bytes p.0) x.0 }
{
    p.to_matrix().apply(x.to_byte())
}

// A Frobenius map, applied, answers what `exp_power_of_2` does.
fn frobenius_applied(power_log: usize, x: Rijndael8b) -> u8
    ensures { result ≡ frob 8 0x1b power_log x.0 }
{
    crate::frobenius_map(power_log).apply(x.to_byte())
}
