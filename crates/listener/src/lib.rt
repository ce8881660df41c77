// The listener: one sampled bit at a time, and the same over a lent capture. It drives nothing.
#![tactic(auto)]

pub mod answers;
mod bytes;
pub mod listeners;

pub use answers::{Answer, Found, Heard};
pub use listeners::Listener;
