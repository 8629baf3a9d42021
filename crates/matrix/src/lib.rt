// Byte maps that keep XOR, as quadwords: output bit i is the parity of the input ANDed with byte 7 - i.
#![tactic(auto)]

ghost use Rattle.std.specs.Prelude.{◌≡◌, length, get_or};
ghost use Rattle.gf2.specs.Bits.{tab};
ghost use Rattle.spellings.specs.Quadword.{image};
ghost use Rattle.spellings.specs.Kinds.{Kind, find, turn, compose as composed};
ghost use Rattle.spellings.specs.Theorem.{Converts};

// Byte k is 1 << (7 - k). Read as a matrix it is the identity; as a multiplier it collects the lowest bit of every byte
// into the topmost byte, byte 7 lowest, with no two of them at one place.
const BIT_LADDER: u64 = 0x0102_0408_1020_4080;

// The lowest bit of every byte. As a multiplier it puts one byte into all eight places.
const SPREAD: u64 = 0x0101_0101_0101_0101;

#[derive(Clone, Copy, Debug, PartialEq, Eq)]
pub struct ByteMatrix(u64);

impl ByteMatrix {
    // The map that sends every byte to zero.
    pub const ZERO: Self = Self(0);

    // The map that leaves every byte alone.
    pub const IDENTITY: Self = Self(BIT_LADDER);

    // The map that sends 1 << b to entry b: bit 8 k + b of the quadword is bit 7 - k of that entry.
    // Kept: here and in `images`: eight bytes are images or coefficients, and a From would hide which.
    pub fn from_images(images: [u8; 8]) -> Self
        ensures { result.0 ≡ turn Kind.Images Kind.Quadword images }
    {
        let mut quadword = 0u64;
        for k in 0..64usize {
            quadword ^= (((images[k % 8] >> (7 - k / 8)) & 1) as u64) << k;
        }
        Self(quadword)
    }

    // Where the map sends the eight single-bit bytes, lowest bit first.
    pub fn images(self) -> [u8; 8]
        ensures { result ≡ turn Kind.Quadword Kind.Images self.0 }
    {
        std::array::from_fn(|b| self.apply(1u8 << b))
    }

    // The image of one byte.
    pub fn apply(self, byte: u8) -> u8
        ensures { result ≡ image self.0 byte }
    {
        // The byte against all eight rows at once.
        let mut parity = self.0 & ((byte as u64) * SPREAD);

        // Each row folded onto its lowest bit, which then holds the row's parity.
        parity ^= parity >> 4;
        parity ^= parity >> 2;
        parity ^= parity >> 1;
        parity &= SPREAD;

        // Row 7 - i drives output bit i, so the gathered byte comes out reversed.
        words::reverse_bits_8((words::wrapping_mul_64(parity, BIT_LADDER) >> 56) as u8)
    }

    // The map that applies the argument first and this one second.
    pub fn compose(self, first: Self) -> Self
        ensures { result.0 ≡ composed Kind.Quadword self.0 first.0 }
    {
        Self::from_images(std::array::from_fn(|b| self.apply(first.apply(1 << b))))
    }

    // The map held in a quadword already. Every quadword is one.
    // Kept: bits, as `f64::from_bits`, and beside `from_images` the name says of what: a From would hide it.
    pub fn from_quadword(rows: u64) -> Self
        ensures { result.0 ≡ rows }
    {
        Self(rows)
    }

    // The quadword that holds the map.
    pub fn to_quadword(self) -> u64
        ensures { result ≡ self.0 }
    {
        self.0
    }

    // Every byte of the list is replaced with its image.
    pub fn apply_slice(self, bytes: &mut [u8])
        ensures { bytes.new ≡ tab (length bytes.old) (λ k. image self.0 (get_or bytes.old k 0)) }
    {
        for byte in bytes.iter_mut() {
            *byte = self.apply(*byte);
        }
    }
}

// These two only tie the constants to the maps that they stand for.
fn zero() -> ByteMatrix
    ensures { result.0 ≡ find Kind.Quadword (λ a. 0) }
{
    ByteMatrix::ZERO
}

fn identity() -> ByteMatrix
    ensures { result.0 ≡ find Kind.Quadword (λ a. a) }
{
    ByteMatrix::IDENTITY
}

// What the theorem of the three spellings says of the two conversions, for every matrix and every eight bytes. Nothing calls
// these: they are there for their contracts.
// Kept: here and in `frobenius` and `tower` each says the theorem of its own two types, and its contract is the whole of it.
fn images_converts(map: ByteMatrix) -> [u8; 8]
    ensures { Converts Kind.Quadword Kind.Images map.0 result }
{
    map.images()
}

fn from_images_converts(images: [u8; 8]) -> ByteMatrix
    ensures { Converts Kind.Images Kind.Quadword images result.0 }
{
    ByteMatrix::from_images(images)
}

fn images_and_back(map: ByteMatrix) -> ByteMatrix
    ensures { result ≡ map }
{
    ByteMatrix::from_images(map.images())
}

fn from_images_and_back(images: [u8; 8]) -> [u8; 8]
    ensures { result ≡ images }
{
    ByteMatrix::from_images(images).images()
}
