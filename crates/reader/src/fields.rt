// The fields of a frame.
ghost use Rattle.std.specs.Prelude.{◌≡◌};
ghost use Rattle.reader.specs.Ranges.{field_fits};
ghost use Rattle.reader.specs.Reader.{width_of, is_done, is_fdf, is_summed, kept_of};

use crate::readers::Kept;
use wire::frames::ROOM;

// The fields of a frame behind the start of frame. Srr is the bit before IDE: SRR in an extended frame, RTR in a base frame. Fdf is
// r0 of a base frame and r1 of an extended one: whoever follows the line gives only a dominant one to the reader.
#[derive(Clone, Copy)]
pub enum Field {
    Upper,
    Srr,
    Ide,
    Lower,
    Rtr,
    Fdf,
    R0,
    Code,
    Data(usize),
    Crc,
    Done,
}

impl Field {
    // How many bits it has.
    pub fn width(self) -> u32
        ensures { result ≡ width_of self }
    {
        match self {
            Field::Upper => 11,
            Field::Srr => 1,
            Field::Ide => 1,
            Field::Lower => 18,
            Field::Rtr => 1,
            Field::Fdf => 1,
            Field::R0 => 1,
            Field::Code => 4,
            Field::Data(_) => 8,
            Field::Crc => 15,
            Field::Done => 0,
        }
    }

    // Did the last CRC bit come?
    pub fn is_done(self) -> bool
        ensures { result ≡ is_done self }
    {
        matches!(self, Field::Done)
    }

    // Would a recessive bit begin a newer format?
    pub fn is_fdf(self) -> bool
        ensures { result ≡ is_fdf self }
    {
        matches!(self, Field::Fdf)
    }

    // Is the CRC worked out over its bits? Its own are no part of it.
    pub fn is_summed(self) -> bool
        ensures { result ≡ is_summed self }
    {
        !matches!(self, Field::Crc | Field::Done)
    }

    // What it leaves to be kept outside, once it is whole.
    pub fn kept(self, v: u32) -> Option<Kept>
        ensures { result ≡ kept_of self v }
    {
        match self {
            Field::Data(at) => Some(Kept {
                at,
                byte: (v % 256) as u8,
            }),
            _ => None,
        }
    }

    // Is a data byte's place within the room for bytes? (As in `Registers::fits`.)
    pub fn fits(self) -> bool
        ensures { result ≡ field_fits self }
    {
        match self {
            Field::Data(i) => i < ROOM,
            _ => true,
        }
    }
}
