// What a new listener answers to a line.
use crate::frames::Described;
use listener::{Answer, Listener};
use moves::Place;
use std::fmt;

// A line, stretch behind stretch, in letters. What is said of it: every answer but "nothing"; or where there was none, whether the listener
// is waiting.
#[derive(Drop)]
pub(crate) struct Hearing<'a>(pub &'a [&'a str]);

// The letters `0` and `1` are the samples 0 and 1; any other byte is offered as it is (as in `hear`).
fn sample(letter: u8) -> u8 {
    match letter {
        b'0' => 0,
        b'1' => 1,
        _ => letter,
    }
}

// One answer, in the samples' words.
#[derive(Drop)]
struct Said(Answer);

impl fmt::Display for Said {
    fn fmt<W: fmt::Write>(&self, f: &mut fmt::Formatter<W>) -> fmt::Result {
        match self.0 {
            Answer::Nothing => write!(f, "nothing"),
            Answer::Handed(received) => write!(f, "{}", Described(received.frame)),
            Answer::Trouble(fault) => write!(f, "{fault}"),
            Answer::Refused(n) => write!(f, "refusal {n}"),
        }
    }
}

impl fmt::Display for Hearing<'_> {
    fn fmt<W: fmt::Write>(&self, f: &mut fmt::Formatter<W>) -> fmt::Result {
        let mut listener = Listener::new();
        let mut silent = true;
        for stretch in self.0 {
            for letter in stretch.bytes() {
                let heard = listener.hear(sample(letter));
                listener = heard.next;
                match heard.answer {
                    Answer::Nothing => {}
                    answer => {
                        let between = if silent { "" } else { ", then " };
                        write!(f, "{between}{}", Said(answer))?;
                        silent = false;
                    }
                }
            }
        }
        if silent {
            write!(f, "nothing")?;
            if let Place::Waiting = listener.core.place {
                write!(f, ", still waiting")?;
            }
        }
        Ok(())
    }
}
