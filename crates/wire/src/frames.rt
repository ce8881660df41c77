// Frames (01 "How bits and frames are held").
ghost use Rattle.std.specs.Prelude.{◌≡◌};
ghost use Rattle.wire.specs.Fields.{carried};

use crate::idents::Ident;

// How many data bytes a record has room for.
pub const ROOM: usize = 8;

// `count` bytes are given; what stands behind them in `bytes` is no part of the frame. The count stands beside them, as in document 01,
// since one that the frame does not carry is refused with 3 (`miscounted`).
#[derive(Clone, Copy)]
pub struct Frame {
    pub ident: Ident,
    pub remote: bool,
    pub code: u8,
    pub count: u8,
    pub bytes: [u8; ROOM],
}

// A frame as it came off the wire: unused bytes are 0. `noted` is document 01's number (`Legal`): 0 for a base frame, and for an
// extended one a sum, 4 if SRR came dominant, 1 if r0 came recessive.
#[derive(Clone, Copy)]
pub struct Received {
    pub frame: Frame,
    pub acknowledged: bool,
    pub noted: u8,
}

// How many data bytes a frame carries, by its remote mark and its length code.
pub fn carried(remote: bool, code: u32) -> usize
    ensures { result ≡ carried remote code }
{
    if remote { 0 } else { ROOM.min(code as usize) }
}
