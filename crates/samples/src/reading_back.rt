// Frames that are written, and what the writer wrote read back: those found by search whose CRC ends in five equal bits, so that a stuff
// bit stands behind its last bit; and one whose length code is above 8.
use crate::frames::{base, data};
use crate::hearing::Hearing;
use crate::images::{BLANK, ELEVEN, IMAGE_009, IMAGE_017, IMAGE_CODE_12, LONGEST};
use crate::tally::Tally;
use std::io;
use wire::Frame;

// Unlike `put`'s, it tells what is no sample.
fn letter(sample: u8) -> u8 {
    match sample {
        0 => b'0',
        1 => b'1',
        _ => b'?',
    }
}

fn written_and_read(
    tally: &mut Tally,
    name: &str,
    frame: Frame,
    image: &str,
    read: &str,
) -> io::Result<()> {
    let mut capture = [BLANK; LONGEST];
    let bits = writer::write(frame, false, &mut capture, 0).unwrap_or(0);
    let letters = capture.map(letter);
    let written = str::from_utf8(letters.get(..bits).unwrap_or(&[])).unwrap_or("?");
    tally.sample(name, written, image)?;
    tally.sample("read that image back", Hearing(&[ELEVEN, written]), read)
}

pub(crate) fn ends_dominant(tally: &mut Tally) -> io::Result<()> {
    written_and_read(
        tally,
        "write frame 009, whose CRC 7C20 ends in five dominant bits",
        data(base(0x009), 0, 0),
        IMAGE_009,
        "base data frame 009, code 0, no bytes",
    )
}

pub(crate) fn ends_recessive(tally: &mut Tally) -> io::Result<()> {
    written_and_read(
        tally,
        "write frame 017, whose CRC 521F ends in five recessive bits",
        data(base(0x017), 0, 0),
        IMAGE_017,
        "base data frame 017, code 0, no bytes",
    )
}

// W-207: code 12 means 8 bytes, and stays 12.
pub(crate) fn code_12(tally: &mut Tally) -> io::Result<()> {
    written_and_read(
        tally,
        "write a frame with length code 12 and 8 bytes",
        data(base(0x123), 12, 8),
        IMAGE_CODE_12,
        "base data frame 123, code 12, 8 bytes 1122334455667788",
    )
}
