// The worked cases of docs/SCOPE.md and FIPS 197's worked products, run by the code: each line is a case and the answer. What must
// come out is stored beside, in `stdout`. (The starred cases are proved of the definitions too, in crate `cases`.)
#![tactic(auto)]

use answers::Refusal;
use frobenius::LinearizedPoly8b;
use matrix::ByteMatrix;
use rijndael::Rijndael8b;
use std::fmt::{Display, Radix};
use std::io;
use tower::BinaryField8;
use words::Limbs;

// "what: answer" in so many hexadecimal digits, or "what: refusal 1".
fn show<T: Radix + Copy>(
    rt: &impl Print,
    what: impl Display + Drop,
    digits: usize,
    answer: Result<T, Refusal>,
) -> io::Result<()> {
    match answer {
        Ok(value) => println!(rt; "{what}: {value:0digits$x}"),
        Err(why) => println!(rt; "{what}: {why}"),
    }
}

fn sums_and_products(rt: &impl Print) -> io::Result<()> {
    let sum = Rijndael8b::from_byte(0x57) + Rijndael8b::from_byte(0x83);
    println!(rt; "FIPS 197: 57 plus 83: {:02x}", sum.to_byte())?;
    for b in [0x83, 0x02, 0x04, 0x08, 0x10, 0x13] {
        let product = rijndael::mul_bytes(0x57, b);
        println!(rt; "FIPS 197: 57 times {b:02x}: {product:02x}")?;
    }
    println!(rt; "byte 80 times 80: {:02x}", rijndael::mul_bytes(0x80, 0x80))
}

fn inverses(rt: &impl Print) -> io::Result<()> {
    for a in [0x53, 0x02, 0x00] {
        let inverse = Rijndael8b::from_byte(a).try_inverse();
        show(
            rt,
            format_args!("inverse of byte {a:02x}"),
            2,
            inverse.map(Rijndael8b::to_byte),
        )?;
    }
    println!(rt;
        "inverse of byte 00, or zero: {:02x}",
        Rijndael8b::ZERO.invert_or_zero().to_byte()
    )
}

fn quotients_and_nodes(rt: &impl Print) -> io::Result<()> {
    for b in [0x83, 0x00] {
        let quotient = Rijndael8b::from_byte(0xc1).div(Rijndael8b::from_byte(b));
        show(
            rt,
            format_args!("byte c1 divided by {b:02x}"),
            2,
            quotient.map(Rijndael8b::to_byte),
        )?;
    }
    for i in [0xff, 0x100] {
        let node = Rijndael8b::interpolation_node(i);
        show(
            rt,
            format_args!("node {i:x}"),
            2,
            node.map(Rijndael8b::to_byte),
        )?;
    }
    Ok(())
}

fn show_images(rt: &impl Print, what: &str, map: ByteMatrix) -> io::Result<()> {
    print!(rt; "images of {what}:")?;
    for image in map.images() {
        print!(rt; " {image:02x}")?;
    }
    println!(rt)
}

fn maps(rt: &impl Print) -> io::Result<()> {
    show_images(rt, "squaring", frobenius::frobenius_map(1))?;
    show_images(
        rt,
        "scaling by 02",
        Rijndael8b::from_byte(2).scaling_matrix(),
    )?;
    println!(rt; "the identity: {:016x}", ByteMatrix::IDENTITY.to_quadword())?;
    let mut coefficients = [Rijndael8b::ZERO; 8];
    coefficients[0] = Rijndael8b::ONE;
    let unit = LinearizedPoly8b::new(coefficients).to_matrix();
    println!(rt;
        "coefficients 01 00 00 00 00 00 00 00: {:016x}",
        unit.to_quadword()
    )
}

fn towers(rt: &impl Print) -> io::Result<()> {
    for x in [0x02, 0x04, 0x10] {
        let t = BinaryField8::from_repr(x);
        let square = (t * t).to_repr();
        println!(rt; "tower {x:02x} squared: {square:02x}")?;
    }
    println!(rt;
        "tower 02 as a Rijndael byte: {:02x}",
        Rijndael8b::from(BinaryField8::from_repr(2)).to_byte()
    )?;
    println!(rt; "the generator: {:02x}", tower::generator().to_byte())
}

fn show_limbs(rt: &impl Print, what: &str, Limbs { low, high }: Limbs) -> io::Result<()> {
    println!(rt; "{what}: low {low:016x}, high {high:016x}")
}

fn large_fields(rt: &impl Print) -> io::Result<()> {
    let top = 1 << 63;
    show_limbs(
        rt,
        "all ones, carryless, by itself",
        clmul::clmul_64x64(u64::MAX, u64::MAX),
    )?;
    println!(rt;
        "64 bits: 8000000000000000 times 2: {:016x}",
        gf64::poly_mul_64(top, 2)
    )?;
    println!(rt;
        "64 bits: 8000000000000000 squared: {:016x}",
        gf64::poly_square_64(top)
    )?;
    println!(rt; "64 bits: square root of 2: {:016x}", gf64::poly_sqrt_64(2))?;
    show_limbs(
        rt,
        "128 bits: (low 0, high 1) squared",
        gf128::poly_square_128(Limbs { low: 0, high: 1 }),
    )?;
    show_limbs(
        rt,
        "128 bits: (low 0, high 8000000000000000) squared",
        gf128::poly_square_128(Limbs { low: 0, high: top }),
    )
}

// One word more than a fingerprint takes.
static ZEROS: [u64; 4097] = [0; 4097];

fn fingerprints(rt: &impl Print) -> io::Result<()> {
    let lists: [(&str, &[u64]); 6] = [
        ("()", &[]),
        ("(1)", &[1]),
        ("(1, 0)", &[1, 0]),
        ("(0, 1)", &[0, 1]),
        ("4,096 zeros", &ZEROS[..4096]),
        ("4,097 zeros", &ZEROS),
    ];
    for (what, words) in lists {
        show(
            rt,
            format_args!("fingerprint at 2 of {what}"),
            16,
            fingerprint::fingerprint(words, 2),
        )?;
    }
    Ok(())
}

fn main(rt: HostRuntime) -> io::Result<()> {
    sums_and_products(&rt)?;
    inverses(&rt)?;
    quotients_and_nodes(&rt)?;
    maps(&rt)?;
    towers(&rt)?;
    large_fields(&rt)?;
    fingerprints(&rt)
}
