// A whole history in one call.
ghost use Rattle.std.specs.Prelude.{◌≡◌, fold};
ghost use Rattle.ledger.specs.Answer.{told};
ghost use Rattle.ledger.specs.History.{run, numbered, events, after_all};

use crate::event::Event;
use crate::ledger::{Ledger, OutOfRange};

impl Ledger {
    // One number: its event, or nothing where it stands for none.
    #[tactic(auto, unfolding(crate::specs::History::run, crate::specs::History::numbered))]
    fn numbered(self, n: u8) -> Ledger
        ensures { result ≡ numbered self n }
    {
        match Event::try_from(n) {
            Ok(e) => self.next(e),
            Err(_) => self,
        }
    }

    // A history lent as event numbers, the oldest first: any bytes are one (`after_all` over `events`), and C can lend them. A number above
    // 10 is no event. The record is looked at once, at the start.
    #[tactic(auto, using(crate::specs::HistoryLaws::run_fold), unfolding(crate::specs::History::after_all))]
    pub fn replay(self, numbers: &[u8]) -> Result<Ledger, OutOfRange>
        ensures { told result ≡ after_all (events numbers.now) self }
    {
        Ok(self.checked()?.run(numbers))
    }

    // A history, number by number.
    fn run(self, numbers: &[u8]) -> Ledger
        ensures { result ≡ fold numbered self numbers.now }
    {
        numbers.iter().fold(self, |ledger, n| ledger.numbered(*n))
    }
}
