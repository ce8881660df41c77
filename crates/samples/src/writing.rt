// The samples of the writer. Where document 01 does not count the bits of an image, the count is the second program's.
use crate::frames::{base, data, remote};
use crate::images::{BLANK, LONGEST};
use crate::tally::Tally;
use refusals::Refusal;
use std::{fmt, io};
use wire::{ExtId, Frame, Ident};

// What the writer answered, and how many bytes of the capture are no longer blank.
#[derive(Drop)]
struct Outcome {
    written: Result<usize, Refusal>,
    changed: usize,
}

impl fmt::Display for Outcome {
    fn fmt<W: fmt::Write>(&self, f: &mut fmt::Formatter<W>) -> fmt::Result {
        let bits = self.written.unwrap_or(0);
        let changed = self.changed;
        match self.written {
            Ok(_) => write!(f, "written")?,
            Err(refusal) => write!(f, "refusal {refusal}")?,
        }
        write!(f, ", {bits} bits reported, {changed} bytes changed")
    }
}

fn write(frame: Frame, old: bool, capture: &mut [u8], start: usize) -> Outcome {
    let written = writer::write(frame, old, capture, start);
    let changed = capture.iter().filter(|b| **b != BLANK).count();
    Outcome { written, changed }
}

// A frame into a capture that has room for any. `old` marks old controllers.
fn write_alone(frame: Frame, old: bool) -> Outcome {
    write(frame, old, &mut [BLANK; LONGEST], 0)
}

pub(crate) fn identifiers(tally: &mut Tally) -> io::Result<()> {
    tally.sample(
        "write a frame with identifier 2,047",
        write_alone(data(base(2047), 0, 0), false),
        "written, 47 bits reported, 47 bytes changed",
    )?;
    tally.sample(
        "write a frame with identifier 2,048",
        write_alone(data(base(2048), 0, 0), false),
        "refusal 1, 0 bits reported, 0 bytes changed",
    )
}

pub(crate) fn codes(tally: &mut Tally) -> io::Result<()> {
    tally.sample(
        "write a frame with length code 8",
        write_alone(data(base(0x123), 8, 8), false),
        "written, 109 bits reported, 109 bytes changed",
    )?;
    tally.sample(
        "write a frame with length code 16",
        write_alone(data(base(0x123), 16, 8), false),
        "refusal 2, 0 bits reported, 0 bytes changed",
    )
}

// The first image of document 01, of 50 bits.
fn write_first(capture: &mut [u8], start: usize) -> Outcome {
    write(data(base(0), 0, 0), false, capture, start)
}

pub(crate) fn captures(tally: &mut Tally) -> io::Result<()> {
    tally.sample(
        "write the 50 bits of frame 000 into a capture of 50 at position 0",
        write_first(&mut [BLANK; 50], 0),
        "written, 50 bits reported, 50 bytes changed",
    )?;
    tally.sample(
        "write them into a capture of 50 at position 1",
        write_first(&mut [BLANK; 50], 1),
        "refusal 5, 0 bits reported, 0 bytes changed",
    )?;
    tally.sample(
        "write them into a capture of 50 at position 51",
        write_first(&mut [BLANK; 50], 51),
        "refusal 4, 0 bits reported, 0 bytes changed",
    )?;
    tally.sample(
        "write them into an empty capture at position 0",
        write_first(&mut [], 0),
        "refusal 5, 0 bits reported, 0 bytes changed",
    )
}

// W-207: codes 9 to 15.
pub(crate) fn codes_to_15(tally: &mut Tally) -> io::Result<()> {
    tally.sample(
        "write a frame with length code 9 and 9 bytes",
        write_alone(data(base(0x123), 9, 9), false),
        "refusal 3, 0 bits reported, 0 bytes changed",
    )?;
    tally.sample(
        "write a remote frame with length code 15",
        write_alone(remote(base(0x123), 15), false),
        "written, 44 bits reported, 44 bytes changed",
    )
}

// W-207: the base identifiers that old controllers take, and those that they do not.
pub(crate) fn identifiers_for_old(tally: &mut Tally) -> io::Result<()> {
    tally.sample(
        "write identifier 2,031 for old controllers",
        write_alone(data(base(2031), 0, 0), true),
        "written, 46 bits reported, 46 bytes changed",
    )?;
    tally.sample(
        "write identifier 2,032 for them",
        write_alone(data(base(2032), 0, 0), true),
        "refusal 8, 0 bits reported, 0 bytes changed",
    )?;
    tally.sample(
        "write identifier 2,047 for them",
        write_alone(data(base(2047), 0, 0), true),
        "refusal 8, 0 bits reported, 0 bytes changed",
    )?;
    tally.sample(
        "write identifier 2,048 for them",
        write_alone(data(base(2048), 0, 0), true),
        "refusal 1, 0 bits reported, 0 bytes changed",
    )
}

// W-207: 8 comes before 2, and is for remote frames too, and for base frames alone.
pub(crate) fn frames_for_old(tally: &mut Tally) -> io::Result<()> {
    tally.sample(
        "write identifier 2,032 with length code 16 for old controllers",
        write_alone(data(base(2032), 16, 8), true),
        "refusal 8, 0 bits reported, 0 bytes changed",
    )?;
    tally.sample(
        "write a remote frame with identifier 2,032 for them",
        write_alone(remote(base(2032), 0), true),
        "refusal 8, 0 bits reported, 0 bytes changed",
    )?;
    tally.sample(
        "write an extended frame with identifier 2,032 for them",
        write_alone(data(Ident::Extended(ExtId(2032)), 0, 0), true),
        "written, 70 bits reported, 70 bytes changed",
    )
}
