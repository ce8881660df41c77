// A frame is written into a lent capture, and listened to from ready.
ghost use Rattle.std.specs.Prelude.{◌≡◌};
ghost use Rattle.claims.specs.ReadBack.{ready_listener, came_back, read_back};

use listener::{Found, Heard, Listener};
use wire::Frame;
use writer::write;

// So many recessive samples make a new listener ready.
const IDLE: usize = 11;

fn ready_listener() -> Listener
    ensures { result ≡ ready_listener }
{
    let idle = [1u8; IDLE];
    Listener::new().next(&idle, 0).heard.next
}

// The frame that was written is handed out; or the writer's refusal is the answer, and no byte changes. `old` marks old controllers.
// Its arguments are `write`'s, each the caller's own.
pub fn read_back(frame: Frame, old: bool, capture: &mut [u8], start: usize) -> Found
    ensures { came_back result capture.new ≡ read_back frame old capture.old start }
{
    let l = ready_listener();
    match write(frame, old, capture, start) {
        Ok(_) => l.next(capture, start),
        Err(refusal) => Heard::refused(refusal.number(), l).found(start),
    }
}
