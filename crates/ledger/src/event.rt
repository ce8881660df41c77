// What can happen to a station, in document 01's order, and the asking of W-210.
ghost use Rattle.ledger.specs.History.{StandsFor};

#[derive(Clone, Copy, Debug, PartialEq, Eq)]
pub enum Event {
    // An error seen as receiver.
    ErrorSeen,
    // A dominant first bit after the own error flag, as receiver.
    DominantAfterFlag,
    // A bit error in the own active error or overload flag, or a further run of too many dominant bits after a flag, as transmitter.
    FlagErrorAsTransmitter,
    // The same as receiver.
    FlagErrorAsReceiver,
    // An error flag sent as transmitter.
    ErrorFlagSent,
    // An acknowledge error with no dominant bit seen in the own flag.
    AcknowledgeError,
    // A recessive stuff bit overwritten during arbitration.
    StuffBitOverwritten,
    // A frame sent well.
    SentWell,
    // A frame received well.
    ReceivedWell,
    // Eleven recessive bits seen.
    ElevenRecessive,
    // A recovery asked for. Recessive bits seen before it belong to no group.
    Ask,
}

// A number that stands for no event.
#[derive(Clone, Copy, Debug, PartialEq, Eq)]
pub struct NoEvent(pub u8);

// Events go by number in document 01's order, from 0 to 9; the asking is number 10.
impl TryFrom<u8> for Event {
    type Error = NoEvent;

    ghost try_from_gives = { StandsFor };

    #[tactic(auto, using(crate::specs::HistoryLaws::event_of_above), unfolding(crate::specs::History::event_of))]
    fn try_from(n: u8) -> Result<Event, NoEvent> {
        match n {
            0 => Ok(Event::ErrorSeen),
            1 => Ok(Event::DominantAfterFlag),
            2 => Ok(Event::FlagErrorAsTransmitter),
            3 => Ok(Event::FlagErrorAsReceiver),
            4 => Ok(Event::ErrorFlagSent),
            5 => Ok(Event::AcknowledgeError),
            6 => Ok(Event::StuffBitOverwritten),
            7 => Ok(Event::SentWell),
            8 => Ok(Event::ReceivedWell),
            9 => Ok(Event::ElevenRecessive),
            10 => Ok(Event::Ask),
            _ => Err(NoEvent(n)),
        }
    }
}
