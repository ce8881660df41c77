// The core, one sample at a time: decide, then act. A sample is a number, as in `wire::bits`.
ghost use Rattle.std.specs.Prelude.{◌≡◌};
ghost use Rattle.line.specs.Core.{at, new_core, move_at, told, nothing, take_move, moved, stepped};
ghost use Rattle.line.specs.Ranges.{core_fits};

use crate::inframe::InFrame;
use moves::moves::{
    quiet_after, when_ack_delimiter, when_end_of_frame, when_intermission, when_ready,
    when_stuffed, when_waiting,
};
use moves::{Fault, Move, Place};
use reader::Kept;

// `quiet` is how many recessive samples in a row there were last, held at eleven.
#[derive(Clone, Copy)]
pub struct Core {
    pub place: Place,
    pub quiet: u32,
    pub frame: InFrame,
}

// What came of a sample: something to keep or nothing, a whole frame, or a trouble.
#[derive(Clone, Copy)]
pub enum Event {
    Keep(Option<Kept>),
    Whole,
    Failed(Fault),
}

#[derive(Clone, Copy)]
pub struct Stepped {
    pub event: Event,
    pub core: Core,
}

impl Core {
    // New, it is waiting.
    pub fn new() -> Core
        ensures { result ≡ new_core }
    {
        Core {
            place: Place::Waiting,
            quiet: 0,
            frame: InFrame::new(),
        }
    }

    // Is every number in its range? Asked at run time, since any record can be handed in: 7 is the answer to one out of its ranges.
    pub fn fits(self) -> bool
        ensures { result ≡ core_fits self }
    {
        (self.quiet < 12) & self.place.fits() & self.frame.fits()
    }

    // With this kept of the frame.
    fn with(self, frame: InFrame) -> Core
        ensures { result ≡ at self.place self.quiet frame }
    {
        Core { frame, ..self }
    }

    // An event, and the place that it leads to.
    fn told(self, event: Event, place: Place) -> Stepped
        ensures { result ≡ told event place self.quiet self.frame }
    {
        Stepped {
            event,
            core: Core { place, ..self },
        }
    }

    // Nothing comes of the sample but another place.
    fn quietly(self, place: Place) -> Stepped
        ensures { result ≡ told nothing place self.quiet self.frame }
    {
        self.told(Event::Keep(None), place)
    }

    // A bit of the frame.
    fn take(self, b: u32) -> Stepped
        ensures { result ≡ take_move self.frame b self.quiet }
    {
        let took = self.frame.reader.took(b);
        let core = self.with(self.frame.around(took.reader, b));
        core.told(Event::Keep(took.kept), Place::Stuffed)
    }

    // Decide: which move the sample asks for. `quiet` counts it already.
    fn decide(self, b: u32) -> Move
        ensures { result ≡ move_at self.place self.frame b self.quiet }
    {
        let f = self.frame;
        let r = f.reader;
        let x = r.field;
        match self.place {
            Place::Waiting => when_waiting(self.quiet),
            Place::Ready => when_ready(b),
            Place::Stuffed => when_stuffed(f.run.hear(b), x.is_done(), x.is_fdf(), b),
            Place::AckSlot => Move::Slot,
            Place::AckDelimiter => when_ack_delimiter(b, f.crc, r.registers.crc),
            Place::EndOfFrame(k) => when_end_of_frame(k, b),
            Place::Intermission(k) => when_intermission(k, b),
        }
    }

    // Act. `quiet` counts the sample already.
    fn moved(self, m: Move, b: u32) -> Stepped
        ensures { result ≡ moved self.frame m b self.quiet }
    {
        let f = self.frame;
        match m {
            Move::Go(p) => self.quietly(p),
            Move::Begin => self.with(InFrame::new()).quietly(Place::Stuffed),
            Move::Take => self.take(b),
            Move::Skip => self.with(f.skipped(b)).quietly(Place::Stuffed),
            Move::Slot => self.with(f.slotted(b)).quietly(Place::AckDelimiter),
            Move::HandOut => self.told(Event::Whole, Place::EndOfFrame(7)),
            Move::Fail(x) => self.told(Event::Failed(x), Place::Waiting),
        }
    }

    // One sample.
    pub fn step(self, b: u32) -> Stepped
        ensures { result ≡ stepped self b }
    {
        let counted = Core {
            quiet: quiet_after(self.quiet, b),
            ..self
        };
        counted.moved(counted.decide(b), b)
    }
}
