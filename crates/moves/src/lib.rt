// Document 01's table, place by place: which move a sample asks of whoever follows the line.
#![tactic(auto)]

pub mod moves;
pub mod places;

pub use moves::Move;
pub use places::{Fault, Place};
