// The two error counts, each its own type, and how an event moves each.
#![tactic(auto)]

mod count;

pub use count::{ReceiveCount, TransmitCount, is_passive};
