// How many lines agreed, and which did not.
use crate::kept::Kept;
use crate::numbers::MOST;
use crate::record::{Fault, Record};
use std::{fmt, io};

// How many bytes of a line are kept. A line that fills them may be longer, and is not read.
pub(crate) const KEPT: usize = 4096;

// How many bytes of a group's name are kept. A longer name begins a group at each line.
const NAME: usize = 32;

// Cases, and those that agreed.
// Kept: docs/PROMISES.md promises the calls of `records::Tally`, whose four fields are two of these.
#[derive(Clone, Copy, Default)]
struct Tally {
    cases: u64,
    agreed: u64,
}

impl Tally {
    fn add(&mut self, agrees: bool) {
        self.cases = self.cases.wrapping_add(1);
        self.agreed = self.agreed.wrapping_add(u64::from(agrees));
    }
}

// "128 of 129 agree"
impl fmt::Display for Tally {
    fn fmt<W: fmt::Write>(&self, f: &mut fmt::Formatter<W>) -> fmt::Result {
        let (agreed, cases) = (self.agreed, self.cases);
        write!(f, "{agreed} of {cases} agree")
    }
}

// The list so far: how many lines there were, the present group's name and cases, and the cases of all groups.
#[derive(Drop)]
pub(crate) struct Report {
    lines: u64,
    name: Kept<NAME>,
    group: Tally,
    all: Tally,
}

impl Report {
    pub(crate) fn new() -> Self {
        Self {
            lines: 0,
            name: Kept::new(),
            group: Tally::default(),
            all: Tally::default(),
        }
    }

    // Counts a line, and shows it where it does not agree.
    pub(crate) fn add(&mut self, rt: &impl Print, line: &[u8]) -> io::Result<()> {
        self.lines = self.lines.wrapping_add(1);
        let fault = match line {
            _ if line.len() >= KEPT => Some(Fault::TooLong),
            [] | [b'#', ..] => return Ok(()),
            _ => self.judge(rt, line)?,
        };
        if let Some(fault) = fault {
            self.show_line(rt, line, fault)?;
        }
        self.group.add(fault.is_none());
        self.all.add(fault.is_none());
        Ok(())
    }

    // What is wrong with a line that is no comment, if anything. The line begins a group where it has another name.
    fn judge(&mut self, rt: &impl Print, line: &[u8]) -> io::Result<Option<Fault>> {
        let mut room = [0; MOST];
        let record = Record::read(line, &mut room);
        self.turn(rt, record.name)?;
        Ok(record.fault())
    }

    fn show_line(&self, rt: &impl Print, line: &[u8], fault: Fault) -> io::Result<()> {
        let number = self.lines;
        print!(rt; "line {number} {fault}: ")?;
        rt.write_all(line)?;
        println!(rt)
    }

    // Ends the present group where a line has another name, and begins that name's.
    fn turn(&mut self, rt: &impl Print, name: &[u8]) -> io::Result<()> {
        if self.name.as_slice() == name {
            return Ok(());
        }
        self.show_group(rt)?;
        self.name.clear();
        for byte in name {
            self.name.push(*byte);
        }
        self.group = Tally::default();
        Ok(())
    }

    // Shows the present group, if it has a name.
    fn show_group(&self, rt: &impl Print) -> io::Result<()> {
        if self.name.as_slice().is_empty() {
            return Ok(());
        }
        let group = self.group;
        rt.write_all(self.name.as_slice())?;
        println!(rt; ": {group}")
    }

    // Shows the last group and the sums.
    pub(crate) fn finish(&self, rt: &impl Print) -> io::Result<()> {
        self.show_group(rt)?;
        let all = self.all;
        println!(rt; "in all: {all}")
    }
}
