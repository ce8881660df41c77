// Document 01's refusals ("When the handset says no"), each by what is wrong, with its number.
ghost use Rattle.std.specs.Prelude.{◌≡◌};
ghost use Rattle.refusals.specs.Refusal.{number, numeral};

use std::fmt;

#[derive(Clone, Copy, Debug, PartialEq, Eq)]
pub enum Refusal {
    // An identifier that its kind has no bits for.
    Identifier = 1,
    // A length code above 15.
    Code = 2,
    // A byte count other than what the frame carries.
    Count = 3,
    // A start position behind the capture's end.
    Start = 4,
    // An image longer than the capture from the start position on.
    Room = 5,
    // A sample that is neither 0 nor 1.
    Sample = 6,
    // A number in the record outside its range.
    Record = 7,
    // A base identifier that old controllers do not take, where they are marked.
    OldControllers = 8,
}

impl Refusal {
    // Its number in document 01.
    pub fn number(self) -> u8
        ensures { result ≡ number self }
    {
        self as u8
    }
}

// As its number.
impl fmt::Display for Refusal {
    ghost output = { numeral };

    fn fmt<W: fmt::Write>(&self, f: &mut fmt::Formatter<W>) -> fmt::Result {
        write!(f, "{}", self.number())
    }
}
