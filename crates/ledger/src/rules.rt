// The rules: the next ledger at each event, for any record.
ghost use Rattle.std.specs.Prelude.{◌≡◌, false};
ghost use Rattle.ledger.specs.Rules.{is_off, one_more, grouped, asking, waiting, counting, next};

use crate::event::Event;
use crate::ledger::Ledger;

impl Ledger {
    // One group more: the 128th brings the station back, and uses up the request.
    fn one_more(self) -> Ledger
        ensures { result ≡ one_more self }
    {
        if self.groups < 127 {
            Ledger {
                groups: self.groups + 1,
                ..self
            }
        } else {
            Ledger::new()
        }
    }

    // A recessive group when bus-off: it counts once a recovery was asked for.
    fn grouped(self) -> Ledger
        ensures { result ≡ grouped self }
    {
        if self.asked { self.one_more() } else { self }
    }

    // A recovery asked for when bus-off, for the first time or again.
    fn asking(self) -> Ledger
        ensures { result ≡ asking self }
    {
        Ledger {
            asked: true,
            ..self
        }
    }

    // Any event when bus-off.
    #[tactic(auto, unfolding(crate::specs::Rules::waiting))]
    fn waiting(self, e: Event) -> Ledger
        ensures { result ≡ waiting e self }
    {
        match e {
            Event::ElevenRecessive => self.grouped(),
            Event::Ask => self.asking(),
            _ => self,
        }
    }

    // Any event when not bus-off.
    #[tactic(auto, unfolding(crate::specs::Rules::change))]
    fn counting(mut self, e: Event) -> Ledger
        requires { is_off self ≡ false }
        ensures { result ≡ counting e self }
    {
        let t = self.transmit;
        let r = self.receive;
        match e {
            Event::ErrorSeen => self.receive = r.raised(1),
            Event::DominantAfterFlag | Event::FlagErrorAsReceiver => self.receive = r.raised(8),
            Event::FlagErrorAsTransmitter | Event::ErrorFlagSent => self.transmit = t.raised(),
            Event::AcknowledgeError => self.transmit = t.unacknowledged(r),
            Event::SentWell => self.transmit = t.lowered(),
            Event::ReceivedWell => self.receive = r.lowered(),
            Event::StuffBitOverwritten | Event::ElevenRecessive | Event::Ask => {}
        }
        self
    }

    // The rules.
    #[tactic(auto, unfolding(crate::specs::Rules::next))]
    pub(crate) fn next(self, e: Event) -> Ledger
        ensures { result ≡ next e self }
    {
        if self.transmit.is_off() {
            self.waiting(e)
        } else {
            self.counting(e)
        }
    }
}
