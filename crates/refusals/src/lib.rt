// When the handset says no: document 01's refusals, and which of them a frame meets by itself (1, 8, 2 and 3) or the place for its image (4 and 5).
#![tactic(auto)]

mod frame;
mod place;
mod refusal;

pub use frame::frame_refusal;
pub use place::place_refusal;
pub use refusal::Refusal;
