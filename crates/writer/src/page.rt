// A page: an image as it is drawn, sample behind sample, bytes as in a capture, with the stuff bits that are due between them.
ghost use Rattle.std.specs.Prelude.{◌≡◌, [], ◌∷◌};
ghost use Rattle.wire.specs.Bits.{bits};
ghost use Rattle.wire.specs.Stuffing.{all};
ghost use Rattle.writer.specs.Pages.{new_page, marks, coding_of, coded_bit, drawn};

use crate::coding::Coding;
use crate::field::Field;
use wire::Run;
use wire::bits::bit_at;

// No image is longer.
const LONGEST: usize = 157;

// Where the next sample goes, and the run of samples before it.
#[derive(Clone, Copy)]
pub(crate) struct Pen {
    pub at: usize,
    pub run: Run,
}

// The samples put down so far, with zeros behind them, and the pen.
#[derive(Drop)]
pub(crate) struct Page {
    // An array, and no `ArrayVec` of `pen.at` samples: the laws of pages (`PagesLaws`) speak of the whole of it.
    pub out: [u8; LONGEST],
    pub pen: Pen,
}

impl Page {
    // Blank, with the pen at the front.
    #[tactic(auto, unfolding(crate::specs::Pages::new_page))]
    pub(crate) fn new() -> Page
        ensures { result ≡ new_page }
    {
        Page {
            out: [0; LONGEST],
            pen: Pen {
                at: 0,
                run: Run::none(),
            },
        }
    }

    // One sample; past the end it is lost, so that no caller has to show that there is room.
    fn sample(&mut self, b: u8)
        ensures { self.new ≡ marks self.old (b ∷ []) }
    {
        let Pen { at, run } = self.pen;
        self.pen.run = run.ran(u32::from(b));
        if at < LONGEST {
            self.out[at] = b;
            self.pen.at = at + 1;
        }
    }

    // One bit, behind what is due before it.
    fn bit(&mut self, how: Coding, b: u8)
        ensures { self.new ≡ drawn self.old (coded_bit how b ∷ []) }
    {
        if let Some(stuff) = how.due(self.pen.run) {
            self.sample(stuff as u8);
        }
        self.sample(b);
    }

    // The bits of a field, highest first.
    // Bit by bit, as `wire::crc::crc_bits` goes: an iterator of bits would need laws of its own, for two loops of one line.
    pub(crate) fn field(&mut self, how: Coding, field: Field)
        ensures { self.new ≡ drawn self.old (all (coding_of how) (bits field.width field.value)) }
    {
        for left in (0..field.width).rev() {
            self.bit(how, bit_at(field.value, left) as u8);
        }
    }
}
