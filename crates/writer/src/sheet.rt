// A sheet: the page of an image, and the CRC over the bits that have been put down on it.
ghost use Rattle.std.specs.Prelude.{◌≡◌};
ghost use Rattle.wire.specs.Bits.{bits};
ghost use Rattle.wire.specs.Fields.{raw, data_fields};
ghost use Rattle.writer.specs.Pages.{new_sheet, laid, closed};

use crate::coding::Coding;
use crate::field::Field;
use crate::page::Page;
use wire::crc::crc_bits;

// The delimiter of the CRC, the last bit before which a stuff bit may be due.
const CRC_DELIMITER: Field = Field { width: 1, value: 1 };

// Slot, acknowledge delimiter and end of frame.
const ACK_AND_END: Field = Field {
    width: 9,
    value: 511,
};

#[derive(Drop)]
pub(crate) struct Sheet {
    pub page: Page,
    pub crc: u32,
}

impl Sheet {
    // A blank page, and no bit in the CRC.
    pub(crate) fn new() -> Sheet
        ensures { result ≡ new_sheet }
    {
        Sheet {
            page: Page::new(),
            crc: 0,
        }
    }

    // A field that the CRC covers.
    #[tactic(auto, unfolding(crate::specs::Pages::laid))]
    pub(crate) fn field(&mut self, field: Field)
        ensures { self.new ≡ laid self.old (bits field.width field.value) }
    {
        self.crc = crc_bits(self.crc, field.width, field.value);
        self.page.field(Coding::Dynamic, field);
    }

    // Data bytes, each highest bit first.
    pub(crate) fn bytes(&mut self, bytes: &[u8])
        ensures { self.new ≡ laid self.old (raw (data_fields bytes.now)) }
    {
        for byte in bytes {
            self.field(Field {
                width: 8,
                value: u64::from(*byte),
            });
        }
    }

    // The CRC, its delimiter, and what ends the frame.
    #[tactic(auto, using(crate::proofs::Drawing::close_drawn))]
    pub(crate) fn close(&mut self)
        ensures { self.new.page ≡ closed self.old }
    {
        let crc = Field {
            width: 15,
            value: u64::from(self.crc),
        };
        self.page.field(Coding::Dynamic, crc);
        self.page.field(Coding::Dynamic, CRC_DELIMITER);
        self.page.field(Coding::Plain, ACK_AND_END);
    }
}
