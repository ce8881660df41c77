// The core of whoever follows a line: where it stands after each sample, and what a sample asks for.
#![tactic(auto)]

pub mod cores;
pub mod inframe;

pub use cores::{Core, Event, Stepped};
pub use inframe::InFrame;
