// The writer: turns a frame into wire bits in a lent capture, or refuses it.
#![tactic(auto)]

mod capture;
mod coding;
mod field;
mod head;
mod image;
mod page;
mod sheet;

pub use capture::write;
