// A line of the list, and what is wrong with it.
use crate::calls::Call;
use crate::function::Function;
use crate::numbers::{MOST, Unfit};
use std::fmt;

// What is wrong with a line, as it is shown.
#[derive(Clone, Copy)]
pub(crate) enum Fault {
    Differs,
    Unreadable,
    TooLong,
}

impl fmt::Display for Fault {
    fn fmt<W: fmt::Write>(&self, f: &mut fmt::Formatter<W>) -> fmt::Result {
        f.write_str(match self {
            Fault::Differs => "differs",
            Fault::Unreadable => "cannot be read",
            Fault::TooLong => "is too long",
        })
    }
}

// A word read as a hexadecimal number of 1 to 16 digits, in lower case.
fn number(word: &[u8]) -> Option<u64> {
    if word.iter().any(u8::is_ascii_uppercase) {
        return None;
    }
    hexadecimal::parse_hex(word)
}

// A line: a call's name, and its numbers, of which `given` stand before the last `=`.
#[derive(Clone, Copy)]
pub(crate) struct Record<'a> {
    pub name: &'a [u8],
    numbers: &'a [u64],
    given: Option<usize>,
}

impl<'a> Record<'a> {
    // The line's numbers stand in `room`. At a word that is no number, or one number too many, the reading ends, and none of the
    // numbers before it is an argument.
    pub(crate) fn read(line: &'a [u8], room: &'a mut [u64; MOST]) -> Self {
        let mut words = line.split(|byte| *byte == b' ');
        let name = words.next().unwrap_or(line);
        let mut count = 0;
        let mut given = None;
        for word in words {
            match (word, number(word)) {
                ([b'='], _) => given = Some(count),
                (_, Some(value)) if count < MOST => {
                    room[count] = value;
                    count += 1;
                }
                _ => {
                    // Kept: such a line has numbers and no arguments, and what is printed of it may not change.
                    given = Some(0);
                    break;
                }
            }
        }
        Self {
            name,
            numbers: room.get(..count).unwrap_or(&[]),
            given,
        }
    }

    // What is wrong with the line, if anything. One with no `=` has no arguments, unless it is full; and no call is without any.
    pub(crate) fn fault(self) -> Option<Fault> {
        let Some(function) = Function::named(self.name) else {
            return Some(Fault::Unreadable);
        };
        let (arguments, answers) = self
            .numbers
            .split_at_checked(self.given.unwrap_or(MOST))
            .unwrap_or((&[], self.numbers));
        let call = Call {
            function,
            arguments,
            answers,
        };
        match call.agrees() {
            Ok(true) => None,
            Ok(false) => Some(Fault::Differs),
            Err(Unfit) if call.overruns() => Some(Fault::Differs),
            Err(Unfit) => Some(Fault::Unreadable),
        }
    }
}
