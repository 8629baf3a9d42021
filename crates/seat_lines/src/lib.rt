// What `seats` shows of a map: a line of its picture, a row of the coach before and after a swap; and its fingerprint.
#![tactic(auto)]

ghost use Rattle.std.specs.Prelude.{◌≡◌, ◌*◌, ◌<◌};
ghost use Rattle.fingerprint.specs.Print.{limit, answer};
ghost use Rattle.seat_lines.specs.Line.{place_of, line_of};
ghost use Rattle.seat_lines.specs.Print.{row_words};

use answers::Refusal;
pub use fingerprint::LIMIT;

// As many rows have a fingerprint, and no more: eight for each word.
pub const ROWS: usize = 8 * LIMIT;

// This only ties the constant to its number.
fn rows() -> usize
    ensures { result ≡ 8 * limit }
{
    ROWS
}

// The digit of a number at a place, which is a power of ten, or a blank before the number's first digit.
fn place(number: usize, unit: usize) -> u8
    requires { 0 < unit }
    ensures { result ≡ place_of number unit }
{
    if number < unit {
        return b' ';
    }
    b'0' + (number / unit % 10) as u8
}

// The line "    1  #..# ....   .... #..#": the row's number in five places, its seats before and after, with the aisle between
// seats 3 and 4, and the line's end.
// Kept: byte by byte and no `write!`: the clause says each byte (`line_of`), and of formatted text nothing is proved.
pub fn row_line(number: usize, before: u8, after: u8) -> [u8; 29]
    ensures { result ≡ line_of number before after }
{
    let b = coach::draw(before);
    let a = coach::draw(after);
    [
        place(number, 10000),
        place(number, 1000),
        place(number, 100),
        place(number, 10),
        b'0' + (number % 10) as u8,
        b' ',
        b' ',
        b[0],
        b[1],
        b[2],
        b[3],
        b' ',
        b[4],
        b[5],
        b[6],
        b[7],
        b' ',
        b' ',
        b' ',
        a[0],
        a[1],
        a[2],
        a[3],
        b' ',
        a[4],
        a[5],
        a[6],
        a[7],
        b'\n',
    ]
}

// The fingerprint of a map at a point, that of its words; or refusal 6 where they are too many.
pub fn fingerprint_rows(rows: &[u8], point: u64) -> Result<u64, Refusal>
    ensures { result ≡ answer (row_words rows.now) point }
{
    // Kept: an array with the count that `pack_rows` answers: the libraries have no heap.
    let mut words = [0; LIMIT];
    let Ok(count) = coach::pack_rows(rows, &mut words) else {
        return Err(Refusal::TooManyWords);
    };
    fingerprint::fingerprint(&words[..count], point)
}
