// The public call: the whole capture and a start position, both checked.
ghost use Rattle.std.specs.Prelude.{◌≡◌, ◌≤◌, false, length};
ghost use Rattle.std.proofs.lemmas.List.Edits.{sets};
ghost use Rattle.refusals.specs.Refusals.{frame_refusal};
ghost use Rattle.writer.specs.Writer.{as_written, outcome, answer};

use crate::image::draw;
use crate::sheet::Sheet;
use refusals::{Refusal, frame_refusal, place_refusal};
use wire::Frame;

// All of `image` at the front of `out`.
#[tactic(auto, using(crate::proofs::Answers::copied))]
fn copy_front(out: &mut [u8], image: &[u8])
    requires { length image.now ≤ length out.old }
    ensures { out.new ≡ sets out.old 0 image.now }
{
    out[..image.len()].copy_from_slice(image);
}

// The image of a frame that is not refused, or a refusal of the place. It stands apart from `write`, so that a frame that is refused costs no
// page.
fn place(frame: Frame, capture: &mut [u8], start: usize) -> Result<usize, Refusal>
    requires { frame_refusal frame false ≡ 0 }
    ensures { outcome (as_written result) capture.new ≡ answer frame false capture.old start }
{
    let mut sheet = Sheet::new();
    draw(frame, &mut sheet);
    let page = &sheet.page;
    let bits = page.pen.at;
    place_refusal(bits, capture.len(), start)?;
    copy_front(&mut capture[start..], &page.out[..bits]);
    Ok(bits)
}

// The wire image of `frame` into `capture` from `start` on, and how many bits it has; or a refusal, and no byte changes.
// `old` marks old controllers.
// Four arguments, as `claims::read_back` has: each is the caller's own, so no struct holds them together.
pub fn write(frame: Frame, old: bool, capture: &mut [u8], start: usize) -> Result<usize, Refusal>
    ensures { outcome (as_written result) capture.new ≡ answer frame old capture.old start }
{
    frame_refusal(frame, old)?;
    place(frame, capture, start)
}
