// The fault ledger: a station's two error counts, kept by document 01's rules for any history of events.
#![tactic(auto)]

mod calls;
mod event;
mod history;
mod ledger;
mod rules;
mod state;

pub use counts::{ReceiveCount, TransmitCount};
pub use event::{Event, NoEvent};
pub use ledger::{Ledger, OutOfRange};
pub use state::State;
