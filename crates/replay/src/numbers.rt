// The numbers of a call: how arguments are read, and what an answer is recorded as.
use answers::Refusal;
use matrix::ByteMatrix;
use rijndael::Rijndael8b;
use std::num::TryFromIntError;
use tower::BinaryField8;
use words::Limbs;

// How many numbers a line may have.
pub(crate) const MOST: usize = 256;

// Why a call gets no verdict: the line has not the form that its call needs.
#[derive(Clone, Copy)]
pub(crate) struct Unfit;

impl From<TryFromIntError> for Unfit {
    fn from(_error: TryFromIntError) -> Self {
        Unfit
    }
}

pub(crate) fn limbs(low: u64, high: u64) -> Limbs {
    Limbs { low, high }
}

pub(crate) fn element(x: u64) -> Result<Rijndael8b, Unfit> {
    Ok(Rijndael8b::from_byte(u8::try_from(x)?))
}

// Kept: beside `element`; one function for both would take the constructor as a parameter at each of its calls.
pub(crate) fn tower_byte(x: u64) -> Result<BinaryField8, Unfit> {
    Ok(BinaryField8::from_repr(u8::try_from(x)?))
}

// The numbers as bytes, which stand in `room`.
pub(crate) fn bytes<'a>(numbers: &[u64], room: &'a mut [u8; MOST]) -> Result<&'a mut [u8], Unfit> {
    for (place, x) in room.iter_mut().zip(numbers) {
        *place = u8::try_from(*x)?;
    }
    room.get_mut(..numbers.len()).ok_or(Unfit)
}

// The list at the front, which stands with its length before it, and the numbers after it.
fn first_list(numbers: &[u64]) -> Result<(&[u64], &[u64]), Unfit> {
    let [length, rest @ ..] = numbers else {
        return Err(Unfit);
    };
    rest.split_at_checked(*length as usize).ok_or(Unfit)
}

// A list that is all.
pub(crate) fn list(numbers: &[u64]) -> Result<&[u64], Unfit> {
    match first_list(numbers)? {
        (list, []) => Ok(list),
        _ => Err(Unfit),
    }
}

// Two lists that are all.
pub(crate) fn lists(numbers: &[u64]) -> Result<(&[u64], &[u64]), Unfit> {
    let (first, rest) = first_list(numbers)?;
    Ok((first, list(rest)?))
}

// What a call may answer.
pub(crate) trait Answer {
    // Whether these numbers are the answer's.
    fn is(self, numbers: &[u64]) -> Result<bool, Unfit>;
}

impl Answer for u64 {
    fn is(self, numbers: &[u64]) -> Result<bool, Unfit> {
        match numbers {
            [x] => Ok(*x == self),
            _ => Err(Unfit),
        }
    }
}

impl Answer for Limbs {
    fn is(self, numbers: &[u64]) -> Result<bool, Unfit> {
        match numbers {
            [low, high] => Ok(limbs(*low, *high) == self),
            _ => Err(Unfit),
        }
    }
}

impl Answer for u8 {
    fn is(self, numbers: &[u64]) -> Result<bool, Unfit> {
        u64::from(self).is(numbers)
    }
}

impl Answer for Rijndael8b {
    fn is(self, numbers: &[u64]) -> Result<bool, Unfit> {
        self.to_byte().is(numbers)
    }
}

impl Answer for BinaryField8 {
    fn is(self, numbers: &[u64]) -> Result<bool, Unfit> {
        self.to_repr().is(numbers)
    }
}

impl Answer for ByteMatrix {
    fn is(self, numbers: &[u64]) -> Result<bool, Unfit> {
        self.to_quadword().is(numbers)
    }
}

// 0 and the value, or the refusal's number. Any other numbers are another answer.
impl<T: Answer + Drop> Answer for Result<T, Refusal> {
    fn is(self, numbers: &[u64]) -> Result<bool, Unfit> {
        match (self, numbers) {
            (Ok(value), [0, rest @ ..]) => Ok(value.is(rest).unwrap_or(false)),
            (Err(refusal), [number]) => Ok(*number == u64::from(refusal.number())),
            _ => Ok(false),
        }
    }
}
