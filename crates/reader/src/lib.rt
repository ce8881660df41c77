// The reader: the field machine that takes the unstuffed bits of one frame, one by one, from the bit behind the start of frame
// to the last CRC bit. It knows nothing of samples, stuffing or the CRC's register.
#![tactic(auto)]

mod bytes;
pub mod fields;
pub mod readers;
pub mod registers;

pub use fields::Field;
pub use readers::{Kept, Reader, Took};
pub use registers::Registers;
