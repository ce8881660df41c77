// The wire: what a frame is, and the rules by which its bits are numbered, checked and stuffed.
// The rules stand in specs/; here are the types they speak of and the leaf code that follows them.
#![tactic(auto)]

pub mod bits;
pub mod crc;
pub mod frames;
pub mod idents;
pub mod runs;

pub use frames::{Frame, Received};
pub use idents::{BaseId, ExtId, Ident};
pub use runs::{Run, Sampled};
