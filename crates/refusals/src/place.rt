// The refusals of a place for an image (01 "When the handset says no", numbers 4 and 5).
ghost use Rattle.std.specs.Prelude.{◌≡◌};
ghost use Rattle.refusals.specs.Refusal.{told};
ghost use Rattle.refusals.specs.Refusals.{place_refusal};

use crate::refusal::Refusal;

// The first refusal that applies to an image of so many bits from `start` on in a capture of that size.
pub fn place_refusal(bits: usize, size: usize, start: usize) -> Result<(), Refusal>
    ensures { told result ≡ place_refusal bits size start }
{
    if size < start {
        Err(Refusal::Start)
    } else if size - start < bits {
        Err(Refusal::Room)
    } else {
        Ok(())
    }
}
