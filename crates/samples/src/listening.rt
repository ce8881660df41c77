// The samples of the listener.
use crate::hearing::Hearing;
use crate::images::{
    ELEVEN, IMAGE_000, IMAGE_009, IMAGE_BASE_R0, IMAGE_CODE_15, IMAGE_EXTENDED_R0,
    IMAGE_EXTENDED_R1, TEN,
};
use crate::tally::Tally;
use std::io;

pub(crate) fn code_15(tally: &mut Tally) -> io::Result<()> {
    tally.sample(
        "read a frame with length code 15",
        Hearing(&[ELEVEN, IMAGE_CODE_15]),
        "base data frame 123, code 15, 8 bytes 1122334455667788",
    )
}

pub(crate) fn ready(tally: &mut Tally) -> io::Result<()> {
    tally.sample(
        "a new listener hears ten recessive samples, then an image",
        Hearing(&[TEN, IMAGE_000]),
        "nothing, still waiting",
    )?;
    tally.sample(
        "a new listener hears eleven recessive samples, then an image",
        Hearing(&[ELEVEN, IMAGE_000]),
        "base data frame 000, code 0, no bytes",
    )
}

pub(crate) fn between(tally: &mut Tally) -> io::Result<()> {
    tally.sample(
        "an image, two recessive bits, an image",
        Hearing(&[ELEVEN, IMAGE_000, "11", IMAGE_009]),
        "base data frame 000, code 0, no bytes, then base data frame 009, code 0, no bytes",
    )?;
    tally.sample(
        "an image, one recessive bit, an image",
        Hearing(&[ELEVEN, IMAGE_000, "1", IMAGE_009]),
        "base data frame 000, code 0, no bytes, then overload",
    )
}

// W-201: r0 of a base frame and r1 of an extended one are FDF; r0 of an extended frame stays free.
pub(crate) fn newer(tally: &mut Tally) -> io::Result<()> {
    tally.sample(
        "read a base frame whose r0 is recessive",
        Hearing(&[ELEVEN, IMAGE_BASE_R0]),
        "newer format begun",
    )?;
    tally.sample(
        "read an extended frame whose r1 is recessive",
        Hearing(&[ELEVEN, IMAGE_EXTENDED_R1]),
        "newer format begun",
    )?;
    tally.sample(
        "read an extended frame whose r0 is recessive",
        Hearing(&[ELEVEN, IMAGE_EXTENDED_R0]),
        "extended data frame 00000123, code 0, no bytes",
    )
}
