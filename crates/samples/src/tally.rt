// The samples that were run, and how many of them came out as they should.
use std::io::{Cursor, Stdout, Write};
use std::{fmt, io};

// Room for what comes of any sample, in words.
const ROOM: usize = 160;

#[derive(Drop)]
pub(crate) struct Tally {
    out: Stdout,
    run: u64,
    right: u64,
}

impl Tally {
    pub(crate) fn new(out: Stdout) -> Tally {
        Tally {
            out,
            run: 0,
            right: 0,
        }
    }

    // One sample: its name, what came out, and what document 01 says should.
    pub(crate) fn sample(
        &mut self,
        name: &str,
        came: impl fmt::Display + Drop,
        should: &str,
    ) -> io::Result<()> {
        let mut words = Cursor::new([0u8; ROOM]);
        write!(words, "{came}")?;
        let end = words.position() as usize;
        let said = words.get_ref().get(..end).unwrap_or(&[]);
        write!(self.out, "{name}: ")?;
        self.out.write_all(said)?;
        self.judged(said == should.as_bytes())
    }

    // The sums may wrap, so that no bound has to be shown; no run comes near it.
    fn judged(&mut self, right: bool) -> io::Result<()> {
        self.run = self.run.wrapping_add(1);
        if right {
            self.right = self.right.wrapping_add(1);
            writeln!(self.out, " - as it should be")
        } else {
            writeln!(self.out, " - WRONG")
        }
    }

    pub(crate) fn print(mut self) -> io::Result<()> {
        let run = self.run;
        let right = self.right;
        writeln!(self.out, "{run} samples, {right} as they should be")
    }
}
