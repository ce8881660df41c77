// Program: a capture of any length on standard input, and a line for each answer of the listener but "nothing".
#![tactic(auto)]

mod lines;
mod samples;

use lines::Line;
use listener::Listener;
use samples::offered;
use std::io;
use std::io::{Cursor, Read, Write};

// So many bytes are read at a time, at most.
const PIECE: usize = 65536;

// No line is longer.
const LONGEST: usize = 128;

// Write the line, whole: put together on the stack, as `samples` does with what it compares.
fn tell(out: &mut impl Write, line: Line) -> io::Result<()> {
    let mut text = Cursor::new([0u8; LONGEST]);
    writeln!(text, "{line}")?;
    let end = text.position() as usize;
    out.write_all(text.get_ref().get(..end).unwrap_or(&[]))
}

// Hear samples, of which the first has the number `first`. Each turn asks for the next answer, and the index goes on from where it was found:
// sample by sample the record's ranges would be looked at for each one, which takes twice as long.
fn hear(out: &mut impl Write, from: Listener, samples: &[u8], first: u64) -> io::Result<Listener> {
    let mut listener = from;
    let mut at = 0;
    while at < samples.len() {
        let found = listener.next(samples, at);
        at = found.at;
        listener = found.heard.next;
        if at < samples.len() {
            let number = first.wrapping_add(at as u64);
            let answer = found.heard.answer;
            tell(out, Line { number, answer })?;
            at += 1;
        }
    }
    Ok(listener)
}

// Hear the input to its end. Nothing says that the input ends, so the pieces are counted, up to a number that no run reaches. Each program
// has such a loop over a state of its own: one for all would need a contract over any reader and any state.
fn hear_all(input: &mut impl Read, out: &mut impl Write) -> io::Result<()> {
    let mut piece = [0u8; PIECE];
    let mut listener = Listener::new();
    let mut first = 0u64;
    for _ in 0..u64::MAX {
        let read = input.read(&mut piece)?;
        if read == 0 {
            break;
        }
        let samples = offered(&mut piece[..read]);
        listener = hear(out, listener, samples, first)?;
        first = first.wrapping_add(samples.len() as u64);
    }
    Ok(())
}

fn main(rt: HostRuntime) -> io::Result<()> {
    hear_all(&mut rt.stdin(), &mut rt.stdout())
}
