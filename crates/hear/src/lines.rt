// A line for an answer.
use listener::Answer;
use std::fmt;
use wire::{Frame, Ident, Received};

// A frame as can-utils writes it: 3 digits for a base identifier or 8 for an extended one, `#`, and the bytes; or `R` for a remote frame.
// The length code stands behind them where they do not tell it. (`samples` says frames in other words.)
#[derive(Drop)]
struct Notation(Frame);

impl fmt::Display for Notation {
    fn fmt<W: fmt::Write>(&self, f: &mut fmt::Formatter<W>) -> fmt::Result {
        let frame = self.0;
        match frame.ident {
            Ident::Base(id) => write!(f, "{:03X}#", id.0)?,
            Ident::Extended(id) => write!(f, "{:08X}#", id.0)?,
        }
        if !frame.remote {
            for b in frame.bytes.iter().take(usize::from(frame.count)) {
                write!(f, "{b:02X}")?;
            }
        }
        match (frame.remote, frame.code) {
            (true, 0) => write!(f, "R"),
            (true, code) => write!(f, "R{code:X}"),
            (false, 0..=8) => Ok(()),
            (false, code) => write!(f, "_{code:X}"),
        }
    }
}

// The answer to a sample, and the sample's number first.
#[derive(Drop)]
pub(crate) struct Line {
    pub number: u64,
    pub answer: Answer,
}

impl fmt::Display for Line {
    fn fmt<W: fmt::Write>(&self, f: &mut fmt::Formatter<W>) -> fmt::Result {
        let number = self.number;
        match self.answer {
            Answer::Nothing => write!(f, "{number} nothing"),
            Answer::Handed(received) => {
                let Received {
                    frame,
                    acknowledged,
                    noted,
                } = received;
                let frame = Notation(frame);
                // The slot is the sample: 0 is dominant.
                let slot = u8::from(!acknowledged);
                write!(f, "{number} frame {frame} slot={slot} noted={noted}")
            }
            Answer::Trouble(fault) => write!(f, "{number} {fault}"),
            Answer::Refused(n) => write!(f, "{number} refused {n}"),
        }
    }
}
