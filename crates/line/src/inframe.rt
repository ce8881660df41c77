// What is kept of the frame that is being heard.
ghost use Rattle.std.specs.Prelude.{◌≡◌};
ghost use Rattle.line.specs.Core.{new_frame, sum_after, around, skipped, slotted};
ghost use Rattle.line.specs.Ranges.{run_fits, frame_fits};

use reader::{Field, Reader};
use wire::Run;
use wire::crc::crc_bit;

// The run of equal samples, the reader, the CRC's register over the bits of the frame, and the acknowledge slot, which is a number and no
// bool: one out of its range is refused with 7 (`frame_fits`).
#[derive(Clone, Copy)]
pub struct InFrame {
    pub run: Run,
    pub reader: Reader,
    pub crc: u32,
    pub slot: u32,
}

// (As in `Core::fits`.)
fn run_fits(run: Run) -> bool
    ensures { result ≡ run_fits run }
{
    (run.last < 2) & (0 < run.len) & (run.len < 6)
}

// The CRC's register after a bit of a field.
fn sum_after(field: Field, crc: u32, b: u32) -> u32
    ensures { result ≡ sum_after field crc b }
{
    if field.is_summed() {
        crc_bit(crc, b)
    } else {
        crc
    }
}

impl InFrame {
    // Behind the start of frame.
    pub(crate) fn new() -> InFrame
        ensures { result ≡ new_frame }
    {
        InFrame {
            run: Run { last: 0, len: 1 },
            reader: Reader::new(),
            crc: 0,
            slot: 0,
        }
    }

    // Is every number in its range? (As in `Core::fits`.)
    pub(crate) fn fits(self) -> bool
        ensures { result ≡ frame_fits self }
    {
        run_fits(self.run) & self.reader.fits() & (self.crc < 0x8000) & (self.slot < 2)
    }

    // A bit of the frame, which the reader has taken.
    pub(crate) fn around(self, reader: Reader, b: u32) -> InFrame
        ensures { result ≡ around self reader b }
    {
        InFrame {
            run: self.run.ran(b),
            reader,
            crc: sum_after(self.reader.field, self.crc, b),
            ..self
        }
    }

    // A stuff bit.
    pub(crate) fn skipped(self, b: u32) -> InFrame
        ensures { result ≡ skipped self b }
    {
        InFrame {
            run: self.run.ran(b),
            ..self
        }
    }

    // The acknowledge slot.
    pub(crate) fn slotted(self, b: u32) -> InFrame
        ensures { result ≡ slotted self b }
    {
        InFrame { slot: b, ..self }
    }
}
