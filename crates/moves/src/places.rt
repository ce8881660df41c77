// Where a sample finds whoever follows the line, and why it waits again.
ghost use Rattle.std.specs.Prelude.{◌≡◌};
ghost use Rattle.moves.specs.Ranges.{place_fits};
ghost use Rattle.moves.specs.Words.{words};

use std::fmt;

// Where a sample finds whoever follows the line (01 "What the listener does at each sample"). Stuffed is from behind the start of
// frame to the CRC delimiter; the bits of end of frame and intermission are counted from 1.
#[derive(Clone, Copy)]
pub enum Place {
    Waiting,
    Ready,
    Stuffed,
    AckSlot,
    AckDelimiter,
    EndOfFrame(u32),
    Intermission(u32),
}

// Why it waits again.
#[derive(Clone, Copy)]
pub enum Fault {
    StuffError,
    FormError,
    CrcError,
    Overload,
    NewerFormat,
}

// In the words of 01 and W-201.
impl fmt::Display for Fault {
    ghost output = { words };

    fn fmt<W: fmt::Write>(&self, f: &mut fmt::Formatter<W>) -> fmt::Result {
        f.write_str(match self {
            Fault::StuffError => "stuff error",
            Fault::FormError => "form error",
            Fault::CrcError => "CRC error",
            Fault::Overload => "overload",
            Fault::NewerFormat => "newer format begun",
        })
    }
}

impl Place {
    // Is its count in its range? Asked at run time, since any record can be handed in: 7 is the answer to one out of its ranges.
    pub fn fits(self) -> bool
        ensures { result ≡ place_fits self }
    {
        match self {
            Place::EndOfFrame(k) => (0 < k) & (k < 8),
            Place::Intermission(k) => (0 < k) & (k < 4),
            _ => true,
        }
    }
}
