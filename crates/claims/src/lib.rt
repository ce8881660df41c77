// The promises: the demands as statements in specs/Promises.antt, kept in proofs/, and the functions whose contracts are promises.
#![tactic(auto)]

mod ledger_history;
mod reads_back;

pub use ledger_history::{Standing, after_history};
pub use reads_back::read_back;
