// The public calls: one for each event, as document 01 asks, each handing back the next ledger, or the one that it was given where that
// is out of range.
ghost use Rattle.std.specs.Prelude.{◌≡◌};
ghost use Rattle.ledger.specs.Answer.{told, after};

use crate::event::Event;
use crate::ledger::{Ledger, OutOfRange};

impl Ledger {
    // Any event: what each of the calls below does.
    #[tactic(auto, unfolding(crate::specs::Answer::after))]
    pub fn step(self, e: Event) -> Result<Ledger, OutOfRange>
        ensures { told result ≡ after e self }
    {
        Ok(self.checked()?.next(e))
    }

    // An error seen as receiver.
    pub fn error_seen(self) -> Result<Ledger, OutOfRange>
        ensures { told result ≡ after Event.ErrorSeen self }
    {
        self.step(Event::ErrorSeen)
    }

    // A dominant first bit after the own error flag, as receiver.
    pub fn dominant_after_flag(self) -> Result<Ledger, OutOfRange>
        ensures { told result ≡ after Event.DominantAfterFlag self }
    {
        self.step(Event::DominantAfterFlag)
    }

    // A bit error in the own active error or overload flag, or a further run of too many dominant bits after a flag, as transmitter.
    pub fn flag_error_as_transmitter(self) -> Result<Ledger, OutOfRange>
        ensures { told result ≡ after Event.FlagErrorAsTransmitter self }
    {
        self.step(Event::FlagErrorAsTransmitter)
    }

    // The same as receiver.
    pub fn flag_error_as_receiver(self) -> Result<Ledger, OutOfRange>
        ensures { told result ≡ after Event.FlagErrorAsReceiver self }
    {
        self.step(Event::FlagErrorAsReceiver)
    }

    // An error flag sent as transmitter.
    pub fn error_flag_sent(self) -> Result<Ledger, OutOfRange>
        ensures { told result ≡ after Event.ErrorFlagSent self }
    {
        self.step(Event::ErrorFlagSent)
    }

    // An acknowledge error with no dominant bit seen in the own flag.
    pub fn acknowledge_error(self) -> Result<Ledger, OutOfRange>
        ensures { told result ≡ after Event.AcknowledgeError self }
    {
        self.step(Event::AcknowledgeError)
    }

    // A recessive stuff bit overwritten during arbitration.
    pub fn stuff_bit_overwritten(self) -> Result<Ledger, OutOfRange>
        ensures { told result ≡ after Event.StuffBitOverwritten self }
    {
        self.step(Event::StuffBitOverwritten)
    }

    // A frame sent well.
    pub fn sent_well(self) -> Result<Ledger, OutOfRange>
        ensures { told result ≡ after Event.SentWell self }
    {
        self.step(Event::SentWell)
    }

    // A frame received well.
    pub fn received_well(self) -> Result<Ledger, OutOfRange>
        ensures { told result ≡ after Event.ReceivedWell self }
    {
        self.step(Event::ReceivedWell)
    }

    // Eleven recessive bits seen.
    pub fn eleven_recessive(self) -> Result<Ledger, OutOfRange>
        ensures { told result ≡ after Event.ElevenRecessive self }
    {
        self.step(Event::ElevenRecessive)
    }

    // A recovery asked for.
    pub fn ask(self) -> Result<Ledger, OutOfRange>
        ensures { told result ≡ after Event.Ask self }
    {
        self.step(Event::Ask)
    }
}
