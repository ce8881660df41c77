// Lines of any length, from input that comes in pieces.
use crate::answers::write_answer;
use arrayvec::ArrayVec;
use std::io;
use std::io::{Read, Write};

// So many bytes of a line are kept: more than any frame takes, so that a line that is cut off there does not read.
const ROOM: usize = 64;

// So many bytes are read at a time, at most.
const PIECE: usize = 65536;

// The answers to lines, and what has come of the line that is not at its end yet.
#[derive(Drop)]
struct Lines<W: Write> {
    out: W,
    line: ArrayVec<u8, ROOM>,
    // Whether old controllers are marked for it.
    old: bool,
}

impl<W: Write + Drop> Lines<W> {
    fn new(out: W) -> Lines<W> {
        Lines {
            out,
            line: ArrayVec::new(),
            old: false,
        }
    }

    // The line is at its end, before which a CR may stand. One that sets the mark writes nothing.
    fn end(&mut self) -> io::Result<()> {
        let line = self.line.as_slice();
        match line.strip_suffix(b"\r").unwrap_or(line) {
            b"old on" => self.old = true,
            b"old off" => self.old = false,
            line => write_answer(&mut self.out, line, self.old)?,
        }
        self.line.clear();
        Ok(())
    }

    // One byte more, if there is room for it.
    fn take(&mut self, b: u8) -> io::Result<()> {
        if b == b'\n' {
            return self.end();
        }
        // What there is no room for is let go.
        let _ = self.line.try_push(b);
        Ok(())
    }

    // The input is at its end. A line that has not come to its own is one too.
    fn finish(mut self) -> io::Result<()> {
        if self.line.is_empty() {
            Ok(())
        } else {
            self.end()
        }
    }
}

// Every line of the input. A loop has to end, and nothing says that the input does: so the pieces are counted, up to a number that no run
// reaches. Each program has such a loop over a state of its own: one for all would need a contract over any reader and any state.
pub(crate) fn answer_all(input: &mut impl Read, out: impl Write + Drop) -> io::Result<()> {
    let mut piece = [0u8; PIECE];
    let mut lines = Lines::new(out);
    for _ in 0..u64::MAX {
        let n = input.read(&mut piece)?;
        if n == 0 {
            break;
        }
        for b in &piece[..n] {
            lines.take(*b)?;
        }
    }
    lines.finish()
}
