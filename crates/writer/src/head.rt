// Start of frame to the length code, as one field.
ghost use Rattle.std.specs.Prelude.{◌≡◌, false};
ghost use Rattle.wire.specs.Bits.{bits};
ghost use Rattle.wire.specs.Fields.{raw};
ghost use Rattle.refusals.specs.Refusals.{frame_refusal};
ghost use Rattle.writer.specs.Pages.{head_fields};

use crate::field::Field;
use wire::{Frame, Ident};

// How many lower parts an extended identifier can have: 2 to the 18th.
const LOWER: u64 = 262144;

// Behind a base identifier, and behind the lower bits of an extended one, stand RTR, two bits 0 and the code; SRR and IDE, both 1, stand
// between the upper and the lower bits.
#[tactic(auto, using(crate::proofs::Drawing::head_packed))]
pub(crate) fn head(f: Frame) -> Field
    requires { frame_refusal f false ≡ 0 }
    ensures { bits result.width result.value ≡ raw (head_fields f) }
{
    let tail = f.remote as u64 * 64 + f.code as u64;
    match f.ident {
        Ident::Base(i) => Field {
            width: 19,
            value: i.0 as u64 * 128 + tail,
        },
        Ident::Extended(i) => {
            let id = i.0 as u64;
            Field {
                width: 39,
                value: ((id / LOWER * 4 + 3) * LOWER + id % LOWER) * 128 + tail,
            }
        }
    }
}
