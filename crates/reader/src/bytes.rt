// The data bytes of a frame.
ghost use Rattle.std.specs.Prelude.{◌≡◌};
ghost use Rattle.wire.specs.Fields.{trimmed};

use wire::frames::ROOM;

// The first n bytes, and 0 behind them.
pub(crate) fn trimmed(n: usize, mut bytes: [u8; ROOM]) -> [u8; ROOM]
    ensures { result ≡ trimmed n bytes }
{
    bytes[n.min(ROOM)..].fill(0);
    bytes
}
