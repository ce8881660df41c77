// A station's ledger: what it holds, what a call hands back, and the state that it stands for.
ghost use Rattle.std.specs.Prelude.{◌≡◌};
ghost use Rattle.ledger.specs.Rules.{new, state_of};
ghost use Rattle.ledger.specs.Words.{line};
ghost use Rattle.ledger.specs.Answer.{in_range, checked};

use crate::state::State;
use counts::{ReceiveCount, TransmitCount, is_passive};
use std::fmt;

// Both counts; when bus-off, also whether a recovery was asked for, and the groups of eleven recessive bits seen since. Ranges: docs/RANGES.md.
// Two fields and no Option: a record with groups that nobody asked for can be handed in, and is refused with 7 (`in_range`).
#[derive(Clone, Copy, Debug, PartialEq, Eq)]
pub struct Ledger {
    pub transmit: TransmitCount,
    pub receive: ReceiveCount,
    pub groups: u8,
    pub asked: bool,
}

// Refusal 7: a number in the record lies outside its range. It hands back the record that was given.
#[derive(Clone, Copy, Debug, PartialEq, Eq)]
pub struct OutOfRange(pub Ledger);

impl Ledger {
    // A new ledger: both counts are 0, and nobody has asked.
    pub fn new() -> Ledger
        ensures { result ≡ new }
    {
        Ledger {
            transmit: TransmitCount(0),
            receive: ReceiveCount(0),
            groups: 0,
            asked: false,
        }
    }

    // Active, passive or bus-off, by the counts alone: so also for a record out of range.
    pub fn state(self) -> State
        ensures { result ≡ state_of self }
    {
        if self.transmit.is_off() {
            State::BusOff
        } else if is_passive(self.transmit, self.receive) {
            State::Passive
        } else {
            State::Active
        }
    }

    // The ledger itself, where all that it holds lies in its range.
    pub(crate) fn checked(self) -> Result<Ledger, OutOfRange>
        ensures { result ≡ checked self }
    {
        if self.in_range() {
            Ok(self)
        } else {
            Err(OutOfRange(self))
        }
    }

    // Whether what the record holds lies in its range. Asked at run time, since any record can be handed in.
    #[tactic(auto, unfolding(crate::specs::Answer::in_range))]
    fn in_range(self) -> bool
        ensures { result ≡ in_range self }
    {
        let Ledger {
            transmit: t,
            receive: r,
            groups: g,
            asked,
        } = self;
        t.fits() & r.fits() & (g <= 127) & (t.is_off() | !asked) & (asked | (g == 0))
    }
}

// As `T R groups STATE`.
impl fmt::Display for Ledger {
    ghost output = { line };

    fn fmt<W: fmt::Write>(&self, f: &mut fmt::Formatter<W>) -> fmt::Result {
        let t = self.transmit.0;
        let r = self.receive.0;
        write!(f, "{t} {r} {} {}", self.groups, self.state())
    }
}
