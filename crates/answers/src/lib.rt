// Why a call refuses: one vocabulary for all crates above. A call that may refuse answers its value, or one of these.
#![tactic(auto)]

ghost use Rattle.std.specs.Prelude.{◌≡◌, Some};
ghost use Rattle.answers.specs.Answer.{refusal, number as number_of};
ghost use Rattle.answers.specs.Text.{text_of};

use std::error::Error;
use std::fmt;

// Why a call refuses. The numbers are those that cross the C interface.
#[derive(Clone, Copy, Debug, PartialEq, Eq)]
pub enum Refusal {
    NoInverse = 1,
    LengthsDiffer = 2,
    BadIndex = 3,
    Short = 4,
    OddLimbs = 5,
    TooManyWords = 6,
}

impl Refusal {
    // The number that a refusal has across the boundary.
    pub fn number(self) -> u32
        ensures { result ≡ refusal self }
    {
        self as u32
    }
}

// "refusal 4"
impl fmt::Display for Refusal {
    ghost output = { λ why. Some (text_of why) };

    fn fmt<W: fmt::Write>(&self, f: &mut fmt::Formatter<W>) -> fmt::Result {
        write!(f, "refusal {}", self.number())
    }
}

impl Error for Refusal {}

// The number of an answer with no value: 0 where the call was done.
pub fn number(answer: Result<(), Refusal>) -> u32
    ensures { result ≡ number_of answer }
{
    match answer {
        Ok(()) => 0,
        Err(why) => why.number(),
    }
}
