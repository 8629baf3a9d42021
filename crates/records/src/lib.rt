// Recorded answers. A record is a line of eight words of sixteen hexadecimal digits, a blank after each and a line end after the last:
// the call's number, its arguments, at most four, and the answer: a refusal's number, or 0 where the call accepts, and two words. A list
// that a call takes stands in the lines after its record, eight entries a line.
#![tactic(auto)]

ghost use Rattle.std.specs.Prelude.{◌≡◌};
ghost use Rattle.answers.specs.Answer.{mapped};
ghost use Rattle.words.specs.declared.Limbs.{Limbs};
ghost use Rattle.records.specs.Lines.{line_of, agrees_of, read_agrees};
ghost use Rattle.records.specs.Shown.{shown, small, shown_left, no_answer, refused_for};
ghost use Rattle.records.specs.Tally.{with_of, closed_of};

use answers::Refusal;
use words::Limbs;

// A line as it was read: its words, all of which are numbers.
#[derive(Clone, Copy, Debug, PartialEq, Eq)]
pub struct Line {
    pub x: [u64; 8],
}

// An answer as a record has it.
#[derive(Clone, Copy, Debug, PartialEq, Eq)]
pub struct Shown {
    pub number: u64,
    pub low: u64,
    pub high: u64,
}

// How many cases there were, and how many agreed: in all, and in the present group. By default there were none.
#[derive(Clone, Copy, Debug, Default, PartialEq, Eq)]
pub struct Tally {
    pub cases: u64,
    pub agreed: u64,
    pub group_cases: u64,
    pub group_agreed: u64,
}

// The words of a line, or nothing where one of them is no number.
pub fn read(text: &[u8; 136]) -> Option<Line>
    ensures { result ≡ line_of text.now }
{
    let mut x = [0u64; 8];
    for (k, word) in x.iter_mut().enumerate() {
        *word = hexadecimal::parse_hex(&text[17 * k..17 * k + 16])?;
    }
    Some(Line { x })
}

impl Line {
    // Whether the line has this answer.
    pub fn agrees(self, answer: Shown) -> bool
        ensures { result ≡ agrees_of self answer }
    {
        let [.., number, low, high] = self.x;
        Shown { number, low, high } == answer
    }
}

// Whether a line that was read has this answer: where a word of it is no number, it has none.
pub fn agrees(line: Option<Line>, answer: Shown) -> bool
    ensures { result ≡ read_agrees line answer }
{
    match line {
        Some(line) => line.agrees(answer),
        None => false,
    }
}

// A value that a record has in two words.
pub trait TwoWords {
    ghost two_words_of: { Self → Limbs };

    fn two_words(self) -> Limbs
        ensures { result ≡ two_words_of self };
}

impl TwoWords for u8 {
    ghost two_words_of = { small };

    fn two_words(self) -> Limbs {
        u64::from(self).two_words()
    }
}

impl TwoWords for u64 {
    ghost two_words_of = { small };

    fn two_words(self) -> Limbs {
        Limbs { low: self, high: 0 }
    }
}

impl TwoWords for Limbs {
    ghost two_words_of = { λ value. value };

    fn two_words(self) -> Limbs {
        self
    }
}

impl From<Refusal> for Shown {
    ghost from_gives = { λ why answer. answer ≡ refused_for why };

    fn from(why: Refusal) -> Self {
        Self {
            number: u64::from(why.number()),
            low: 0,
            high: 0,
        }
    }
}

impl Shown {
    // The answer of a call that answers a value.
    pub fn value<T: TwoWords>(answer: Result<T, Refusal>) -> Self
        ensures { result ≡ shown (mapped T.two_words_of answer) }
    {
        match answer {
            Ok(value) => {
                let Limbs { low, high } = value.two_words();
                Self {
                    number: 0,
                    low,
                    high,
                }
            }
            Err(why) => why.into(),
        }
    }

    // The answer of a call that writes: its number, and how many lent bytes are as they should be.
    pub fn left(answer: Result<(), Refusal>, matching: u64) -> Self
        ensures { result ≡ shown_left answer matching }
    {
        Self {
            number: u64::from(answers::number(answer)),
            low: matching,
            high: 0,
        }
    }

    // Kept: a number and no `None`: docs/PROMISES.md promises this call.
    // Of a call that nobody knows: a refusal's number is below 2^32.
    pub fn unknown() -> Self
        ensures { result ≡ no_answer }
    {
        Self {
            number: 1 << 32,
            low: 0,
            high: 0,
        }
    }
}

impl Tally {
    // One case more.
    pub fn with(self, agrees: bool) -> Self
        ensures { result ≡ with_of self agrees }
    {
        let agreed = u64::from(agrees);
        Self {
            cases: self.cases.wrapping_add(1),
            agreed: self.agreed.wrapping_add(agreed),
            group_cases: self.group_cases.wrapping_add(1),
            group_agreed: self.group_agreed.wrapping_add(agreed),
        }
    }

    // A new group.
    pub fn closed(self) -> Self
        ensures { result ≡ closed_of self }
    {
        Self {
            group_cases: 0,
            group_agreed: 0,
            ..self
        }
    }
}
