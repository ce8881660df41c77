// The counts of document 01, "The fault ledger". No function asks anything of a count: each is defined for every number that its type holds.
ghost use Rattle.std.specs.Prelude.{◌≡◌, ◌+◌, ◌-◌, leb};
ghost use Rattle.counts.specs.Numbers.{receive_held, most_transmit};
ghost use Rattle.counts.specs.Counts.{held, off, is_passive, raised, unacknowledged, received};

// The transmit error count, T.
#[derive(Clone, Copy, Debug, PartialEq, Eq)]
pub struct TransmitCount(pub u16);

// The receive error count, R.
#[derive(Clone, Copy, Debug, PartialEq, Eq)]
pub struct ReceiveCount(pub u16);

// T or R above 127.
pub fn is_passive(t: TransmitCount, r: ReceiveCount) -> bool
    ensures { result ≡ is_passive t.0 r.0 }
{
    (127 < t.0) | (127 < r.0)
}

impl TransmitCount {
    // T above 255: the station is bus-off.
    pub fn is_off(self) -> bool
        ensures { result ≡ off self.0 }
    {
        255 < self.0
    }

    // T in its range: asked at run time, since any record can be handed in, and 7 is the answer to one out of its ranges.
    pub fn fits(self) -> bool
        ensures { result ≡ leb self.0 most_transmit }
    {
        self.0 <= 263
    }

    // T + 8; a T that is bus-off stays, since nothing raises it then.
    pub fn raised(self) -> TransmitCount
        ensures { result.0 ≡ raised self.0 }
    {
        if self.is_off() {
            return self;
        }
        TransmitCount(self.0 + 8)
    }

    // T - 1, or 0 if it was 0.
    pub fn lowered(self) -> TransmitCount
        ensures { result.0 ≡ self.0 - 1 }
    {
        TransmitCount(self.0.saturating_sub(1))
    }

    // Unchanged if the station was passive before, else T + 8.
    pub fn unacknowledged(self, receive: ReceiveCount) -> TransmitCount
        ensures { result.0 ≡ unacknowledged self.0 receive.0 }
    {
        if is_passive(self, receive) {
            return self;
        }
        self.raised()
    }
}

// Not one type with the above by a parameter: each count has its own range and moves by rules of its own.
impl ReceiveCount {
    // R in its range. (As for T.)
    pub fn fits(self) -> bool
        ensures { result ≡ leb self.0 receive_held }
    {
        self.0 <= 255
    }

    // R + `by`, held at 255.
    pub fn raised(self, by: u8) -> ReceiveCount
        ensures { result.0 ≡ held (self.0 + by) }
    {
        ReceiveCount(self.0.saturating_add(u16::from(by)).min(255))
    }

    // Above 127 becomes 127; else R - 1, or 0 if it was 0.
    pub fn lowered(self) -> ReceiveCount
        ensures { result.0 ≡ received self.0 }
    {
        if 127 < self.0 {
            return ReceiveCount(127);
        }
        ReceiveCount(self.0.saturating_sub(1))
    }
}
