// The frames of the samples, and a frame in words.
use std::fmt;
use wire::{BaseId, Frame, Ident};

pub(crate) fn base(identifier: u16) -> Ident {
    Ident::Base(BaseId(identifier))
}

// A data frame; its bytes are as many of 11 22 .. 88 as are given.
pub(crate) fn data(ident: Ident, code: u8, count: u8) -> Frame {
    Frame {
        ident,
        remote: false,
        code,
        count,
        bytes: [0x11, 0x22, 0x33, 0x44, 0x55, 0x66, 0x77, 0x88],
    }
}

pub(crate) fn remote(ident: Ident, code: u8) -> Frame {
    Frame {
        remote: true,
        ..data(ident, code, 0)
    }
}

// A frame, in words of its own: `hear` prints the notation of can-utils.
#[derive(Drop)]
pub(crate) struct Described(pub Frame);

impl fmt::Display for Described {
    fn fmt<W: fmt::Write>(&self, f: &mut fmt::Formatter<W>) -> fmt::Result {
        let frame = self.0;
        let kind = if frame.remote { "remote" } else { "data" };
        match frame.ident {
            Ident::Base(id) => write!(f, "base {kind} frame {:03x}", id.0)?,
            Ident::Extended(id) => write!(f, "extended {kind} frame {:08x}", id.0)?,
        }
        write!(f, ", code {}", frame.code)?;
        if frame.count == 0 {
            return write!(f, ", no bytes");
        }
        write!(f, ", {} bytes ", frame.count)?;
        for b in frame.bytes.iter().take(usize::from(frame.count)) {
            write!(f, "{b:02x}")?;
        }
        Ok(())
    }
}
