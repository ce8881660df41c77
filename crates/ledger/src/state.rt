// How far a station may still take part on the line.
ghost use Rattle.ledger.specs.Words.{word};

use std::fmt;

#[derive(Clone, Copy, Debug, PartialEq, Eq)]
pub enum State {
    Active,
    Passive,
    BusOff,
}

// As one word.
impl fmt::Display for State {
    ghost output = { word };

    fn fmt<W: fmt::Write>(&self, f: &mut fmt::Formatter<W>) -> fmt::Result {
        f.write_str(match self {
            State::Active => "active",
            State::Passive => "passive",
            State::BusOff => "off",
        })
    }
}
