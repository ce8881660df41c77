// The listener's record, and its calls.
ghost use Rattle.std.specs.Prelude.{◌≡◌, true, drop};
ghost use Rattle.listener.specs.Listener.{new_listener, received_of, answer_to, accepted, fits, heard, seek, found};

use crate::answers::{Answer, Found, Heard};
use crate::bytes::keep;
use line::{Core, Event};
use refusals::Refusal;
use wire::Received;
use wire::frames::ROOM;

// The core that follows the line, and the data bytes of the frame it is in.
#[derive(Clone, Copy)]
pub struct Listener {
    pub core: Core,
    pub bytes: [u8; ROOM],
}

impl Listener {
    // New, it is waiting.
    pub fn new() -> Listener
        ensures { result ≡ new_listener }
    {
        Listener {
            core: Core::new(),
            bytes: [0; ROOM],
        }
    }

    // Is every number in its range? (As in `Core::fits`.)
    fn fits(self) -> bool
        ensures { result ≡ fits self }
    {
        self.core.fits()
    }

    // The frame that is whole.
    fn received(self) -> Received
        ensures { result ≡ received_of self.core.frame self.bytes }
    {
        let f = self.core.frame;
        let g = f.reader.registers;
        Received {
            frame: g.frame(self.bytes),
            acknowledged: f.slot == 0,
            noted: g.noted(),
        }
    }

    // The answer to what came of a sample, where the core has taken it.
    fn answer(mut self, event: Event) -> Heard
        ensures { result ≡ answer_to event self.core self.bytes }
    {
        let answer = match event {
            Event::Keep(kept) => {
                keep(&mut self.bytes, kept);
                Answer::Nothing
            }
            Event::Whole => Answer::Handed(self.received()),
            Event::Failed(fault) => Answer::Trouble(fault),
        };
        Heard { answer, next: self }
    }

    // A sample that is 0 or 1.
    fn accepted(self, b: u32) -> Heard
        ensures { result ≡ accepted self b }
    {
        let stepped = self.core.step(b);
        let next = Listener {
            core: stepped.core,
            ..self
        };
        next.answer(stepped.event)
    }

    // One sample: 7 comes before 6.
    pub fn hear(self, sample: u8) -> Heard
        ensures { result ≡ heard self sample }
    {
        if !self.fits() {
            return Heard::refused(Refusal::Record.number(), self);
        }
        if sample < 2 {
            self.accepted(sample as u32)
        } else {
            Heard::refused(Refusal::Sample.number(), self)
        }
    }

    // The first answer that is not "nothing", from the sample at a position on, where the record is within its ranges. Every step
    // keeps it so, and a data byte is stored in place: no range is tested for a sample, and no array copied.
    fn seek(self, capture: &[u8], from: usize) -> Found
        requires { fits self ≡ true }
        ensures { result ≡ seek self from (drop from capture.now) }
    {
        let Listener {
            mut core,
            mut bytes,
        } = self;
        for at in from..capture.len() {
            let sample = capture[at];
            if 1 < sample {
                let refusal = Refusal::Sample.number();
                return Heard::refused(refusal, Listener { core, bytes }).found(at);
            }
            let stepped = core.step(sample as u32);
            core = stepped.core;
            match stepped.event {
                Event::Keep(kept) => keep(&mut bytes, kept),
                event => return Listener { core, bytes }.answer(event).found(at),
            }
        }
        let heard = Heard {
            answer: Answer::Nothing,
            next: Listener { core, bytes },
        };
        heard.found(from.max(capture.len()))
    }

    // The first answer that is not "nothing", from the sample at a position on. The record is looked at once.
    pub fn next(self, capture: &[u8], from: usize) -> Found
        ensures { result ≡ found self capture.now from }
    {
        if self.fits() {
            self.seek(capture, from)
        } else {
            Heard::refused(Refusal::Record.number(), self).found(from)
        }
    }
}
