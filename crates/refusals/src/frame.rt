// The refusals that a frame meets by itself (01 "When the handset says no", numbers 1 to 3; W-207, number 8).
ghost use Rattle.std.specs.Prelude.{◌≡◌};
ghost use Rattle.refusals.specs.Refusal.{told};
ghost use Rattle.refusals.specs.Refusals.{too_large, barred, miscounted, frame_refusal};

use crate::refusal::Refusal;
use wire::frames::carried;
use wire::{Frame, Ident};

// 1: an identifier that its kind has no bits for.
fn too_large(ident: Ident) -> bool
    ensures { result ≡ too_large ident }
{
    match ident {
        Ident::Base(i) => 2047 < i.0,
        Ident::Extended(i) => 536870911 < i.0,
    }
}

// 8: a base identifier that old controllers do not take, where they are marked.
fn barred(old: bool, ident: Ident) -> bool
    ensures { result ≡ barred old ident }
{
    match ident {
        Ident::Base(i) => old & (2031 < i.0),
        Ident::Extended(_) => false,
    }
}

// 3: a byte count other than what the frame carries.
fn miscounted(remote: bool, code: u8, count: u8) -> bool
    ensures { result ≡ miscounted remote code count }
{
    count as usize != carried(remote, code as u32)
}

// The first refusal that applies; `old` marks old controllers.
#[tactic(auto, using(crate::proofs::Rows::rows))]
pub fn frame_refusal(f: Frame, old: bool) -> Result<(), Refusal>
    ensures { told result ≡ frame_refusal f old }
{
    let ident = f.ident;
    if too_large(ident) {
        Err(Refusal::Identifier)
    } else if barred(old, ident) {
        Err(Refusal::OldControllers)
    } else if 15 < f.code {
        Err(Refusal::Code)
    } else if miscounted(f.remote, f.code, f.count) {
        Err(Refusal::Count)
    } else {
        Ok(())
    }
}
