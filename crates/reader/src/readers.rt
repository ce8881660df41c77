// One bit at a time through the fields.
ghost use Rattle.std.specs.Prelude.{◌≡◌, ◌<◌};
ghost use Rattle.reader.specs.Ranges.{reader_fits};
ghost use Rattle.reader.specs.Reader.{begun, new_reader, shifted, within, turned, took_of};

use crate::fields::Field;
use crate::registers::Registers;

// The field that is being read, how many of its bits are to come, those that came as a number, and the fields before it.
#[derive(Clone, Copy)]
pub struct Reader {
    pub field: Field,
    pub left: u32,
    pub value: u32,
    pub registers: Registers,
}

// A data byte that is whole, to be kept outside, and its place among the bytes.
#[derive(Clone, Copy)]
pub struct Kept {
    pub at: usize,
    pub byte: u8,
}

#[derive(Clone, Copy)]
pub struct Took {
    pub reader: Reader,
    pub kept: Option<Kept>,
}

// A field's bits with one more: no field has more than 18.
fn shifted(v: u32, b: u32) -> u32
    ensures { result ≡ shifted v b }
{
    v % 0x20000 * 2 + b % 2
}

// At the front of a field.
fn begun(registers: Registers, field: Field) -> Reader
    ensures { result ≡ begun registers field }
{
    Reader {
        field,
        left: field.width(),
        value: 0,
        registers,
    }
}

impl Reader {
    // Behind the start of frame.
    pub fn new() -> Reader
        ensures { result ≡ new_reader }
    {
        begun(Registers::new(), Field::Upper)
    }

    // Is every number in its range? (As in `Registers::fits`.)
    pub fn fits(self) -> bool
        ensures { result ≡ reader_fits self }
    {
        self.field.fits() & (self.left < 19) & (self.value < 0x40000) & self.registers.fits()
    }

    // The field goes on.
    fn within(self, v: u32) -> Took
        requires { 1 < self.left }
        ensures { result ≡ within self v }
    {
        Took {
            reader: Reader {
                left: self.left - 1,
                value: v,
                ..self
            },
            kept: None,
        }
    }

    // The field is whole: it is kept, and the next begins.
    fn turned(self, v: u32) -> Took
        ensures { result ≡ turned self v }
    {
        let registers = self.registers.put(self.field, v);
        Took {
            reader: begun(registers, registers.next(self.field)),
            kept: self.field.kept(v),
        }
    }

    // One unstuffed bit more.
    pub fn took(self, b: u32) -> Took
        ensures { result ≡ took_of self b }
    {
        let v = shifted(self.value, b);
        if 1 < self.left {
            self.within(v)
        } else {
            self.turned(v)
        }
    }
}
