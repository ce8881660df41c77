// What a line is answered by.
use crate::notation::read;
use std::io;
use std::io::Write;
use wire::Frame;

// `0` for a dominant sample and `1` for any other, of which an image has none. (`samples` tells what is no sample.)
fn letter(sample: u8) -> u8 {
    if sample == 0 { b'0' } else { b'1' }
}

// Room for any image.
const ROOM: usize = 160;

// The wire image, or the refusal.
fn write_image(out: &mut impl Write, frame: Frame, old: bool) -> io::Result<()> {
    let mut capture = [0u8; ROOM];
    match writer::write(frame, old, &mut capture, 0) {
        Ok(bits) => {
            for sample in capture.iter_mut() {
                *sample = letter(*sample);
            }
            out.write_all(capture.get(..bits).unwrap_or(&[]))?;
            out.write_all(b"\n")
        }
        Err(refusal) => writeln!(out, "refused {refusal}"),
    }
}

// `old` marks old controllers.
pub(crate) fn write_answer(out: &mut impl Write, line: &[u8], old: bool) -> io::Result<()> {
    match read(line) {
        Some(frame) => write_image(out, frame, old),
        None => out.write_all(b"not a frame\n"),
    }
}
