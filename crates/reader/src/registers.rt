// What each field held, and what it says.
ghost use Rattle.std.specs.Prelude.{◌≡◌, ◌≤◌};
ghost use Rattle.reader.specs.Ranges.{registers_fit};
ghost use Rattle.reader.specs.Reader.{new_registers, remote_of, ident_of, note_of, noted_of, bytes_to_come, frame_of, put_of, after_ide, after_fdf, data_or_crc, after_data, next_of};

use crate::bytes::trimmed;
use crate::fields::Field;
use wire::frames::{ROOM, carried};
use wire::{BaseId, ExtId, Frame, Ident};

// What each field held, as it came. The data bytes are not kept here: each is handed on as it is whole. Single bits are numbers and no
// bools: one out of its range is refused with 7 (`registers_fit`).
#[derive(Clone, Copy, Default)]
pub struct Registers {
    pub upper: u32,
    pub srr: u32,
    pub ide: u32,
    pub lower: u32,
    pub rtr: u32,
    pub r0: u32,
    pub code: u32,
    pub crc: u32,
}

// What a bit adds to the noted bits: its weight, where it came as the value that is noted, and never more.
fn note(b: u32, noted: u32, weight: u8) -> u8
    ensures { (result ≡ note_of b noted weight) × (result ≤ weight) }
{
    if b == noted { weight } else { 0 }
}

// The data byte at i of n, or the CRC behind the last.
fn data_or_crc(i: usize, n: usize) -> Field
    ensures { result ≡ data_or_crc i n }
{
    if i < n { Field::Data(i) } else { Field::Crc }
}

fn after_data(i: usize, n: usize) -> Field
    ensures { result ≡ after_data i n }
{
    if i < ROOM {
        data_or_crc(i + 1, n)
    } else {
        Field::Crc
    }
}

impl Registers {
    // Before the first field.
    pub fn new() -> Registers
        ensures { result ≡ new_registers }
    {
        Registers::default()
    }

    // Is every number in its range? Asked at run time, since any record can be handed in: 7 is the answer to one out of its ranges.
    pub fn fits(self) -> bool
        ensures { result ≡ registers_fit self }
    {
        (self.upper < 2048)
            & (self.srr < 2)
            & (self.ide < 2)
            & (self.lower < 0x40000)
            & (self.rtr < 2)
            & (self.r0 < 2)
            & (self.code < 16)
            & (self.crc < 0x8000)
    }

    pub fn remote(self) -> bool
        ensures { result ≡ remote_of self }
    {
        if self.ide == 0 {
            self.srr == 1
        } else {
            self.rtr == 1
        }
    }

    pub fn ident(self) -> Ident
        ensures { result ≡ ident_of self }
    {
        if self.ide == 0 {
            Ident::Base(BaseId((self.upper % 2048) as u16))
        } else {
            Ident::Extended(ExtId(self.upper % 2048 * 0x40000 + self.lower % 0x40000))
        }
    }

    // The noted bits: a base frame has none.
    pub fn noted(self) -> u8
        ensures { result ≡ noted_of self }
    {
        if self.ide == 0 {
            0
        } else {
            note(self.srr, 0, 4) + note(self.r0, 1, 1)
        }
    }

    // How many data bytes follow the length code.
    pub fn bytes_to_come(self) -> usize
        ensures { result ≡ bytes_to_come self }
    {
        carried(self.remote(), self.code)
    }

    // The frame that the registers and the data bytes hold.
    pub fn frame(self, bytes: [u8; ROOM]) -> Frame
        ensures { result ≡ frame_of self bytes }
    {
        let count = self.bytes_to_come();
        Frame {
            ident: self.ident(),
            remote: self.remote(),
            code: (self.code % 16) as u8,
            count: count as u8,
            bytes: trimmed(count, bytes),
        }
    }

    // A whole field is kept; FDF is dominant, and a data byte is not kept here.
    pub fn put(mut self, field: Field, v: u32) -> Registers
        ensures { result ≡ put_of self field v }
    {
        match field {
            Field::Upper => self.upper = v % 2048,
            Field::Srr => self.srr = v % 2,
            Field::Ide => self.ide = v % 2,
            Field::Lower => self.lower = v % 0x40000,
            Field::Rtr => self.rtr = v % 2,
            Field::R0 => self.r0 = v % 2,
            Field::Code => self.code = v % 16,
            Field::Crc => self.crc = v % 0x8000,
            Field::Fdf | Field::Data(_) | Field::Done => {}
        }
        self
    }

    // The field behind a field that is kept.
    pub fn next(self, field: Field) -> Field
        ensures { result ≡ next_of self field }
    {
        match field {
            Field::Upper => Field::Srr,
            Field::Srr => Field::Ide,
            Field::Ide if self.ide == 0 => Field::Fdf,
            Field::Ide => Field::Lower,
            Field::Lower => Field::Rtr,
            Field::Rtr => Field::Fdf,
            Field::Fdf if self.ide == 0 => Field::Code,
            Field::Fdf => Field::R0,
            Field::R0 => Field::Code,
            Field::Code => data_or_crc(0, self.bytes_to_come()),
            Field::Data(i) => after_data(i, self.bytes_to_come()),
            Field::Crc => Field::Done,
            Field::Done => Field::Done,
        }
    }
}
