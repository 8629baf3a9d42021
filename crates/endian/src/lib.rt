// Little-endian words of 64 and 128 bits in lent bytes. A reader ignores what follows its element; a writer changes the
// bytes of its element only.
#![tactic(auto)]

ghost use Rattle.std.specs.Prelude.{◌≡◌};
ghost use Rattle.words.specs.Limbs.{value, limbs};
ghost use Rattle.answers.specs.Answer.{mapped};
ghost use Rattle.answers.specs.Lent.{read_of, room_for, written};

use answers::Refusal;
use words::Limbs;

// The word of the first 8 bytes.
pub fn read_64(s: &[u8]) -> Result<u64, Refusal>
    ensures { result ≡ read_of 8 s.now }
{
    let bytes = s.first_chunk::<8>().ok_or(Refusal::Short)?;
    Ok(u64::from_le_bytes(*bytes))
}

// Writes a word into the first 8 bytes, or nothing.
pub fn write_64(d: &mut [u8], v: u64) -> Result<(), Refusal>
    ensures answer { result ≡ room_for 8 d.old }
    ensures bytes { d.new ≡ written 8 d.old v }
{
    let bytes = d.first_chunk_mut::<8>().ok_or(Refusal::Short)?;
    *bytes = v.to_le_bytes();
    Ok(())
}

// The element of the first 16 bytes, its low limb first.
pub fn read_128(s: &[u8]) -> Result<Limbs, Refusal>
    ensures { result ≡ mapped limbs (read_of 16 s.now) }
{
    let low = read_64(s)?;
    let high = read_64(&s[8..])?;
    Ok(Limbs { low, high })
}

// Writes an element into the first 16 bytes, its low limb first, or nothing.
pub fn write_128(d: &mut [u8], v: Limbs) -> Result<(), Refusal>
    ensures answer { result ≡ room_for 16 d.old }
    ensures bytes { d.new ≡ written 16 d.old (value v) }
{
    if d.len() < 16 {
        return Err(Refusal::Short);
    }
    write_64(d, v.low)?;
    write_64(&mut d[8..], v.high)
}
