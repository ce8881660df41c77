// Keeps the ledger of a station that was new over the event digits on standard input (`0` to `9`, and `a` for a recovery asked for), and
// prints it after each: `T R groups STATE`, with STATE `active`, `passive` or `off`. Space, tab, CR and LF are skipped; any other character
// is answered `not an event`.
#![tactic(auto)]

use ledger::{Ledger, State};
use std::io;
use std::io::{Cursor, Read, Write};

// So many bytes are read at a time, at most.
const PIECE: usize = 4096;

// No state is longer, with the end of its line.
const LONGEST: usize = 8;

// Where the ledger is printed, and the ledger.
#[derive(Drop)]
struct Desk<W: Write> {
    out: W,
    ledger: Ledger,
}

impl<W: Write + Drop> Desk<W> {
    // The state, whole with the end of its line.
    fn tell(&mut self, state: State) -> io::Result<()> {
        let mut text = Cursor::new([0u8; LONGEST]);
        writeln!(text, "{state}")?;
        let end = text.position() as usize;
        self.out.write_all(text.get_ref().get(..end).unwrap_or(&[]))
    }

    // One event, by its number, as document 01 has them and `replay` takes them. The ledger goes out part by part, and not as it prints itself:
    // `writeln!` would write the end of the line apart from the state.
    fn event(&mut self, number: u8) -> io::Result<()> {
        let answer = self.ledger.replay(&[number]);
        self.ledger = answer.unwrap_or_else(|refused| refused.0);
        let t = self.ledger.transmit.0;
        let r = self.ledger.receive.0;
        write!(self.out, "{t} {r} {} ", self.ledger.groups)?;
        self.tell(self.ledger.state())
    }

    // One character.
    fn take(&mut self, c: u8) -> io::Result<()> {
        match c {
            b' ' | b'\t' | b'\r' | b'\n' => Ok(()),
            b'0'..=b'9' => self.event(c - b'0'),
            b'a' => self.event(10),
            _ => writeln!(self.out, "not an event"),
        }
    }
}

// The input to its end. Nothing says that it ends, so the pieces are counted, up to a number of them that no run uses up. Each program
// has such a loop over a state of its own: one for all would need a contract over any reader and any state.
fn take_all(input: &mut impl Read, out: impl Write + Drop) -> io::Result<()> {
    let mut piece = [0u8; PIECE];
    let mut desk = Desk {
        out,
        ledger: Ledger::new(),
    };
    for _ in 0..u64::MAX {
        let n = input.read(&mut piece)?;
        if n == 0 {
            break;
        }
        for c in &piece[..n] {
            desk.take(*c)?;
        }
    }
    Ok(())
}

fn main(rt: HostRuntime) -> io::Result<()> {
    take_all(&mut rt.stdin(), rt.stdout())
}
