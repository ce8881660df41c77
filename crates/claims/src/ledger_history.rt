// The ledger's promise, on the code: over any history that begins with a new ledger.
ghost use Rattle.ledger.specs.History.{events};
ghost use Rattle.claims.specs.Promises.{LedgerPromise};

use ledger::{Ledger, State};
use refusals::Refusal;

// How a station stands after a history: what its calls answer, 0 or the number of a refusal, the ledger that they hand back, and the state.
#[derive(Clone, Copy, Debug, PartialEq, Eq)]
pub struct Standing {
    pub refusal: u8,
    pub ledger: Ledger,
    pub state: State,
}

// How a station that was new stands after a history lent as event numbers. That its calls are never refused is promised of the number.
pub fn after_history(numbers: &[u8]) -> Standing
    ensures { LedgerPromise (events numbers.now) result }
{
    let (refusal, ledger) = match Ledger::new().replay(numbers) {
        Ok(ledger) => (0, ledger),
        Err(refused) => (Refusal::Record.number(), refused.0),
    };
    Standing {
        refusal,
        ledger,
        state: ledger.state(),
    }
}
