// Stuffing, a bit at a time: what is due before a bit is sent, and what a sample is that is heard.
ghost use Rattle.std.specs.Prelude.{◌≡◌};
ghost use Rattle.wire.specs.Stuffing.{none, opposite, ran, due_as};
ghost use Rattle.wire.specs.Unstuffing.{sampled_as};

// The run of equal samples so far: the last sample, and how many equal ones end with it, up to five.
// Before the first sample `last` is 2, which no sample equals: so the first one begins a run by the same test as any other.
#[derive(Clone, Copy)]
pub struct Run {
    pub last: u32,
    pub len: u32,
}

// What a sample of the stuffed part is.
#[derive(Clone, Copy)]
pub enum Sampled {
    FrameBit,
    StuffBit,
    SixthEqual,
}

fn opposite(b: u32) -> u32
    ensures { result ≡ opposite b }
{
    u32::from(b == 0)
}

impl Run {
    // Before the first sample.
    pub fn none() -> Run
        ensures { result ≡ none }
    {
        Run { last: 2, len: 0 }
    }

    // With one sample more.
    pub fn ran(self, b: u32) -> Run
        ensures { result ≡ ran self b }
    {
        let len = if b == self.last {
            self.len.min(4) + 1
        } else {
            1
        };
        Run { last: b, len }
    }

    // The stuff bit that is due before the next bit of the stuffed part, if one is.
    pub fn due(self) -> Option<u32>
        ensures { result ≡ due_as self }
    {
        if self.len == 5 {
            Some(opposite(self.last))
        } else {
            None
        }
    }

    // What the next sample is.
    pub fn hear(self, b: u32) -> Sampled
        ensures { result ≡ sampled_as self b }
    {
        if self.len != 5 {
            Sampled::FrameBit
        } else if b == self.last {
            Sampled::SixthEqual
        } else {
            Sampled::StuffBit
        }
    }
}
