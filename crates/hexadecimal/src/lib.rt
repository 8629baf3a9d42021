// Numbers in hexadecimal: read from digits in upper or lower case, written in lower case.
#![tactic(auto)]

ghost use Rattle.std.specs.Prelude.{◌≡◌, ◌<◌};
ghost use Rattle.hexadecimal.specs.Hex.{digit_of, read_digit, hex_of, glyph_of, text_of};

// What a hexadecimal digit stands for, and 16 for any other byte.
// Kept: a number and no `None`: docs/PROMISES.md promises the 16.
#[tactic(auto, unfolding(crate::specs::Hex::digit_of))]
pub fn digit(c: u8) -> u8
    ensures { result ≡ digit_of c }
{
    match c {
        b'0'..=b'9' => c - b'0',
        b'a'..=b'f' => c - b'a' + 10,
        b'A'..=b'F' => c - b'A' + 10,
        _ => 16,
    }
}

// What a hexadecimal digit stands for; any other byte is no digit.
pub fn parse_digit(c: u8) -> Option<u8>
    ensures { result ≡ read_digit c }
{
    let d = digit(c);
    if d < 16 { Some(d) } else { None }
}

// The number that 1 to 16 hexadecimal digits stand for; any other text is no number.
pub fn parse_hex(text: &[u8]) -> Option<u64>
    ensures { result ≡ hex_of text.now }
{
    if text.is_empty() || text.len() > 16 {
        return None;
    }
    let mut number = 0u64;
    for &c in text {
        let d = parse_digit(c)?;
        number = number * 16 + (d as u64);
    }
    Some(number)
}

// The digit for a number below 16.
fn glyph(d: u8) -> u8
    requires { d < 16 }
    ensures { result ≡ glyph_of d }
{
    if d < 10 { b'0' + d } else { b'a' + (d - 10) }
}

// A word in sixteen digits, the highest first.
pub fn text(number: u64) -> [u8; 16]
    ensures { result ≡ text_of number }
{
    std::array::from_fn(|i| glyph(((number >> (60 - 4 * i)) % 16) as u8))
}
