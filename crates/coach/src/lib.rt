// What the program `seats` does with a map before and after the byte matrix: its rows as words, and a row's picture.
#![tactic(auto)]

ghost use Rattle.std.specs.Prelude.{◌≡◌, ◌≤◌, ◌<◌, length};
ghost use Rattle.coach.specs.Rows.{row_word_of, packed_answer, packed, seat_of, drawn};

use answers::Refusal;

// The word of at most eight rows, the first lowest.
fn row_word(rows: &[u8]) -> u64
    requires { length rows.now ≤ 8 }
    ensures { result ≡ row_word_of rows.now 0 }
{
    if let Some(eight) = rows.first_chunk::<8>() {
        return u64::from_le_bytes(*eight);
    }
    // Kept: eight turns, and no loop over the rows alone: tried, and its vector form takes longer for so few.
    let mut word = 0u64;
    for k in 0..8 {
        let row = rows.get(k).copied().unwrap_or(0);
        word ^= (row as u64) << (8 * k);
    }
    word
}

// The rows as words, eight rows a word, the last word filled with zeros. Words after them stay as they were; where the words
// lent are too few, all do.
pub fn pack_rows(rows: &[u8], words: &mut [u64]) -> Result<usize, Refusal>
    ensures answer { result ≡ packed_answer rows.now words.old }
    ensures words { words.new ≡ packed rows.now words.old }
{
    let count = rows.len().div_ceil(8);
    if count > words.len() {
        return Err(Refusal::Short);
    }
    // Kept: `words[i]` and no `zip`: tried, and of the elements nothing is known after a `zip` on `iter_mut`.
    for (i, chunk) in rows.chunks(8).enumerate() {
        words[i] = row_word(chunk);
    }
    Ok(count)
}

// What stands for seat `i` of a row: '#' for a taken seat, '.' for a free one.
fn seat(row: u8, i: usize) -> u8
    requires { i < 8 }
    ensures { result ≡ seat_of row i }
{
    if (row >> i) & 1 == 1 { b'#' } else { b'.' }
}

// The picture of a row, seat 0 first.
pub fn draw(row: u8) -> [u8; 8]
    ensures { result ≡ drawn row }
{
    std::array::from_fn(|i| seat(row, i))
}
