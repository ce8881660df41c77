// What the listener answers.
ghost use Rattle.std.specs.Prelude.{◌≡◌};
ghost use Rattle.listener.specs.Listener.{refused, found_at};

use crate::listeners::Listener;
use moves::Fault;
use wire::Received;

#[derive(Clone, Copy)]
pub enum Answer {
    Nothing,
    // a frame is handed out
    Handed(Received),
    Trouble(Fault),
    // by its number: `Heard::refused` takes any; and no `Err`, since over a capture the hearing goes on behind it
    Refused(u8),
}

// The answer to a sample, and the record for the next.
#[derive(Clone, Copy)]
pub struct Heard {
    pub answer: Answer,
    pub next: Listener,
}

// What was heard, and the position of the sample that was answered so; where nothing was, the one behind the last sample.
#[derive(Clone, Copy)]
pub struct Found {
    pub heard: Heard,
    pub at: usize,
}

impl Heard {
    // A refused call hands back the record it was given.
    pub fn refused(n: u8, listener: Listener) -> Heard
        ensures { result ≡ refused n listener }
    {
        Heard {
            answer: Answer::Refused(n),
            next: listener,
        }
    }

    // The answer to the sample at a position.
    pub fn found(self, at: usize) -> Found
        ensures { result ≡ found_at at self }
    {
        Found { heard: self, at }
    }
}
