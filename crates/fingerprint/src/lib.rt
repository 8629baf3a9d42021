// The fingerprint of a list of words: what two ends compare instead of the list.
#![tactic(auto)]

ghost use Rattle.std.specs.Prelude.{◌≡◌};
ghost use Rattle.fingerprint.specs.Print.{limit, answer};

use answers::Refusal;

// As many words have a fingerprint.
pub const LIMIT: usize = 4096;

// The constant, held to the number that the definition gives.
fn most_words() -> usize
    ensures { result ≡ limit }
{
    LIMIT
}

// From 0, XORs each word in and multiplies by the point; or refusal 6.
pub fn fingerprint(words: &[u64], point: u64) -> Result<u64, Refusal>
    ensures { result ≡ answer words.now point }
{
    if words.len() > most_words() {
        return Err(Refusal::TooManyWords);
    }
    let mut sum = 0;
    for word in words {
        sum = gf64::poly_mul_64(sum ^ *word, point);
    }
    Ok(sum)
}
